// A stream of packets: each has a length and a sum in front; the last is empty and says how many came before it. A read error counts as the end of the file.
ghost use Rattle.std.specs.Prelude.{◌≤◌, length};

use crate::cursor::word_of;
use crate::questions::ask_all;
use crate::tally::{add_packet, fault, faults, packets};
use attributes::decode::part;
use numbers::prefix::starts_with;
use std::io::Read;
use std::num::wrapping_add_u32;

// Two sums, the second of all values of the first.
fn sum(bytes: &[u8]) -> u32 {
    let mut a: u32 = 0;
    let mut b: u32 = 0;
    for &byte in bytes {
        a = wrapping_add_u32(a, byte as u32);
        b = wrapping_add_u32(b, a);
    }
    b
}

// The bytes of a packet that was read.
fn take(rt: &impl Print, packet: &[u8], wanted: u32, t: &mut [u64; 128]) -> bool {
    if sum(packet) == wanted {
        ask_all(rt, packet, t);
        add_packet(t);
        faults(t) == 0
    } else {
        fault(rt, t, 0, b"the packet's sum is another");
        false
    }
}

// Fills a buffer from its start until it is full, the input ends or a read fails. Answers how many bytes were read.
fn read_full<I: Read>(input: &mut I, buffer: &mut [u8]) -> usize
    ensures { result ≤ length buffer.new }
{
    let mut done = 0;
    while done < buffer.len() {
        match input.read(&mut buffer[done..]) {
            Ok(n) if n > 0 => done += n,
            _ => return done,
        }
    }
    done
}

// So many bytes at the start of the packet, if they fit.
fn read_bytes<I: Read>(input: &mut I, packet: &mut [u8], length: usize) -> usize {
    if length <= packet.len() {
        read_full(input, &mut packet[..length])
    } else {
        0
    }
}

// A packet of so many bytes.
fn read_packet<I: Read>(
    rt: &impl Print,
    input: &mut I,
    packet: &mut [u8; 1048576],
    length: usize,
    wanted: u32,
    t: &mut [u64; 128],
) -> bool {
    if 1048576 < length {
        fault(rt, t, 0, b"a packet is longer than 1,048,576 bytes");
        return false;
    }
    let got = read_bytes(input, packet, length);
    if got < length {
        fault(rt, t, got, b"the file ends in this packet");
        return false;
    }
    take(rt, part(packet, 0, length), wanted, t)
}

// The end packet has, in place of a sum, how many came before it.
fn read_end(rt: &impl Print, wanted: u32, t: &mut [u64; 128]) -> bool {
    if wanted as u64 != packets(t) {
        fault(rt, t, 0, b"the end packet says another number of packets");
    }
    false
}

// The next packet; answers whether to go on.
fn next_packet<I: Read>(
    rt: &impl Print,
    input: &mut I,
    packet: &mut [u8; 1048576],
    t: &mut [u64; 128],
) -> bool {
    let mut head = [0u8; 8];
    let got = read_full(input, &mut head);
    if got < 8 {
        fault(rt, t, got, b"the file ends without its end packet");
        return false;
    }
    let length = word_of(&head, 0) as usize;
    let wanted = word_of(&head, 4);
    if length == 0 {
        read_end(rt, wanted, t)
    } else {
        read_packet(rt, input, packet, length, wanted, t)
    }
}

// A proved loop has to end, and nothing says that a file does: it counts its turns up to a number that no file reaches.
fn all_packets<I: Read>(
    rt: &impl Print,
    input: &mut I,
    packet: &mut [u8; 1048576],
    t: &mut [u64; 128],
) {
    for _ in 0..u64::MAX {
        if !next_packet(rt, input, packet, t) {
            return;
        }
    }
}

// The stream that can be read from an input.
pub fn run<I: Read>(
    rt: &impl Print,
    input: &mut I,
    packet: &mut [u8; 1048576],
    t: &mut [u64; 128],
) {
    let mut head = [0u8; 8];
    let got = read_full(input, &mut head);
    if starts_with(&head, b"CBCASES1") & (got == 8) {
        all_packets(rt, input, packet, t);
    } else {
        fault(rt, t, 0, b"this is no file of cases");
    }
}
