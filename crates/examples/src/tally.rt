// What was compared, counted by question, and every difference on a line of its own.
use crate::cursor::{Cursor, DIFFERS, PASSED, SAME, whole, word_of};
use std::num::wrapping_add_u64;

// The tally has four numbers for each kind of question: given, refused, different, not comparable. Those of kind 0, which is none, are the packets and the
// faults of the file.
const GIVEN: usize = 0;

const REFUSED: usize = 1;

const DIFFERENT: usize = 2;

const UNCOMPARED: usize = 3;

// A write that fails is not told.
pub fn text(rt: &impl Print, words: &[u8]) {
    let _ = rt.write_all(words);
}

pub fn decimal(rt: &impl Print, n: u64) {
    let _ = rt.print(n);
}

// In so many digits at least, with zeros in front.
pub fn hex(rt: &impl Print, n: u64, width: usize) {
    let _ = print!(rt; "{n:0width$x}");
}

fn slot(t: &[u64; 128], i: usize) -> u64 {
    if i < 128 { t[i] } else { 0 }
}

fn add(t: &mut [u64; 128], i: usize) {
    if i < 128 {
        t[i] = wrapping_add_u64(t[i], 1);
    }
}

// Where a number stands; 128, past the end, where there is no such one.
fn place(kind: u32, which: usize) -> usize {
    if kind < 32 {
        if which < 4 {
            return kind as usize * 4 + which;
        }
    }
    128
}

pub fn packets(t: &[u64; 128]) -> u64 {
    slot(t, 0)
}

pub fn add_packet(t: &mut [u64; 128]) {
    add(t, 0);
}

pub fn faults(t: &[u64; 128]) -> u64 {
    slot(t, 1)
}

fn title(rt: &impl Print, kind: u32) {
    match kind {
        1 => text(rt, b"section"),
        2 => text(rt, b"child walk"),
        3 => text(rt, b"member"),
        4 => text(rt, b"union"),
        5 => text(rt, b"enumeration"),
        6 => text(rt, b"typedef"),
        7 => text(rt, b"variable"),
        8 => text(rt, b"label"),
        9 => text(rt, b"pointer to member"),
        10 => text(rt, b"overlay branch"),
        11 => text(rt, b"size"),
        12 => text(rt, b"next row"),
        13 => text(rt, b"sibling"),
        14 => text(rt, b"attribute"),
        15 => text(rt, b"type attribute"),
        16 => text(rt, b"layout"),
        20 => text(rt, b"offset"),
        21 => text(rt, b"address"),
        22 => text(rt, b"variable location"),
        23 => text(rt, b"modifiers"),
        24 => text(rt, b"type"),
        25 => text(rt, b"subscripts"),
        26 => text(rt, b"producer"),
        27 => text(rt, b"fundamental type"),
        28 => text(rt, b"modifier"),
        _ => text(rt, b"no question"),
    }
}

// Where a question stands.
fn tell_place(rt: &impl Print, t: &[u64; 128], at: usize) {
    text(rt, b"packet ");
    decimal(rt, packets(t));
    text(rt, b", byte ");
    decimal(rt, at as u64);
    text(rt, b": ");
}

// A fault of the file: it says nothing about our answers.
pub fn fault(rt: &impl Print, t: &mut [u64; 128], at: usize, what: &[u8]) {
    text(rt, b"bad case file, ");
    tell_place(rt, t, at);
    text(rt, what);
    text(rt, b"\n");
    add(t, 1);
}

fn difference(rt: &impl Print, t: &mut [u64; 128], at: usize, kind: u32, body: &[u8], c: Cursor) {
    text(rt, b"difference, ");
    tell_place(rt, t, at);
    title(rt, kind);
    text(rt, b" ");
    hex(rt, word_of(body, 0) as u64, 8);
    text(rt, b", at byte ");
    decimal(rt, c.at as u64);
    text(rt, b" of its body\n");
    add(t, place(kind, DIFFERENT));
}

fn agreed(t: &mut [u64; 128], kind: u32, refused: bool) {
    if refused {
        add(t, place(kind, REFUSED));
    } else {
        add(t, place(kind, GIVEN));
    }
}

// Counts a question whose words were compared up to c. Answers false where its form is wrong.
pub fn judge(
    rt: &impl Print,
    t: &mut [u64; 128],
    at: usize,
    kind: u32,
    body: &[u8],
    c: Cursor,
) -> bool {
    let d = whole(body, c);
    if d.verdict == SAME {
        agreed(t, kind, d.refused);
        return true;
    }
    if d.verdict == DIFFERS {
        difference(rt, t, at, kind, body, d);
        return true;
    }
    if d.verdict == PASSED {
        add(t, place(kind, UNCOMPARED));
        return true;
    }
    fault(
        rt,
        t,
        at,
        b"the words of a question end too early or go on too long",
    );
    false
}

// A number with what it counts, if it is not 0.
fn told(rt: &impl Print, n: u64, what: &[u8]) {
    if n > 0 {
        text(rt, b", ");
        decimal(rt, n);
        text(rt, what);
    }
}

// The line of a kind of question, if there was one.
fn report_kind(rt: &impl Print, t: &[u64; 128], kind: u32) {
    let given = slot(t, place(kind, GIVEN));
    let refused = slot(t, place(kind, REFUSED));
    let different = slot(t, place(kind, DIFFERENT));
    let uncompared = slot(t, place(kind, UNCOMPARED));
    if (given > 0) | ((refused > 0) | ((different > 0) | (uncompared > 0))) {
        text(rt, b"  ");
        title(rt, kind);
        text(rt, b": ");
        decimal(rt, given);
        text(rt, b" given, ");
        decimal(rt, refused);
        text(rt, b" refused");
        told(rt, different, b" different");
        told(rt, uncompared, b" not comparable");
        text(rt, b"\n");
    }
}

fn report_kinds(rt: &impl Print, t: &[u64; 128]) -> u64 {
    let mut different: u64 = 0;
    for kind in 1..32 {
        report_kind(rt, t, kind);
        different = wrapping_add_u64(different, slot(t, place(kind, DIFFERENT)));
    }
    different
}

// All of it.
pub fn report(rt: &impl Print, t: &[u64; 128]) {
    let different = report_kinds(rt, t);
    if different > 0 {
        text(rt, b"  differences: ");
        decimal(rt, different);
        text(rt, b"\n");
    } else if faults(t) > 0 {
        text(rt, b"  no verdict: the case file is bad\n");
    } else {
        text(rt, b"  differences: none\n");
    }
}
