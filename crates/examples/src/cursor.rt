// The words that a case expects, held against ours one after the other. A function takes a cursor and hands it on, moved past what it compared; after the first
// difference nothing more is compared.
use attributes::decode::part;
use format::refusal::{Reason, Refusal, number_of};
use numbers::Endian;
use numbers::number::{bytes_there, number_at};
use numbers::prefix::starts_with;
use std::num::wrapping_add_usize;

// How it went so far.
pub const SAME: u32 = 0;

pub const DIFFERS: u32 = 1;

// The words end too early or go on too long.
pub const MISSHAPEN: u32 = 2;

// Not comparable.
pub const PASSED: u32 = 3;

// Where the next expected word stands, and whether ours is a refusal.
#[derive(Clone, Copy)]
pub struct Cursor {
    pub at: usize,
    pub verdict: u32,
    pub refused: bool,
}

// The expected words begin here.
pub fn start(at: usize) -> Cursor {
    Cursor {
        at,
        verdict: SAME,
        refused: false,
    }
}

// Nothing more is compared.
fn ended(c: Cursor, verdict: u32) -> Cursor {
    Cursor {
        at: c.at,
        verdict,
        refused: c.refused,
    }
}

fn after(c: Cursor, n: usize) -> Cursor {
    Cursor {
        at: wrapping_add_usize(c.at, n),
        verdict: c.verdict,
        refused: c.refused,
    }
}

// The same or not, as n bytes go by.
fn stepped(c: Cursor, same: bool, n: usize) -> Cursor {
    if same { after(c, n) } else { ended(c, DIFFERS) }
}

// What a word of the body is, 0 past its end.
pub fn word_of(body: &[u8], at: usize) -> u32 {
    number_at::<u32>(body, at, Endian::Little).unwrap_or(0)
}

// The next expected word.
pub fn word(body: &[u8], c: Cursor, ours: u32) -> Cursor {
    if c.verdict != SAME {
        return c;
    }
    match number_at::<u32>(body, c.at, Endian::Little) {
        Some(n) => stepped(c, n == ours, 4),
        None => ended(c, MISSHAPEN),
    }
}

// The next, as a signed number.
pub fn signed(body: &[u8], c: Cursor, ours: i32) -> Cursor {
    if c.verdict != SAME {
        return c;
    }
    match number_at::<i32>(body, c.at, Endian::Little) {
        Some(n) => stepped(c, n == ours, 4),
        None => ended(c, MISSHAPEN),
    }
}

// The next expected byte, as of a text.
pub fn byte(body: &[u8], c: Cursor, ours: u8) -> Cursor {
    if c.verdict != SAME {
        return c;
    }
    match number_at::<u8>(body, c.at, Endian::Big) {
        Some(n) => stepped(c, n == ours, 1),
        None => ended(c, MISSHAPEN),
    }
}

pub fn flag(body: &[u8], c: Cursor, ours: bool) -> Cursor {
    if ours {
        word(body, c, 1)
    } else {
        word(body, c, 0)
    }
}

pub fn low_word(n: u64) -> u32 {
    (n % 0x1_0000_0000) as u32
}

// A number of 64 bits, its low word first.
pub fn long(body: &[u8], c: Cursor, ours: u64) -> Cursor {
    let d = word(body, c, low_word(ours));
    word(body, d, low_word(ours / 0x1_0000_0000))
}

// A count or a length.
pub fn count(body: &[u8], c: Cursor, ours: usize) -> Cursor {
    word(body, c, low_word(ours as u64))
}

// So many bytes, without their length.
fn raw(body: &[u8], c: Cursor, ours: &[u8]) -> Cursor {
    if c.verdict != SAME {
        return c;
    }
    let at = c.at;
    if bytes_there(body, at, ours.len()) {
        stepped(c, starts_with(part(body, at, ours.len()), ours), ours.len())
    } else {
        ended(c, MISSHAPEN)
    }
}

// A length and so many bytes.
pub fn bytes(body: &[u8], c: Cursor, ours: &[u8]) -> Cursor {
    let d = count(body, c, ours.len());
    raw(body, d, ours)
}

// The bit of a refusal's number; only these are allowed where several are.
fn bit_of(number: u32) -> u32 {
    match number {
        9 => 0x0000_0200,
        10 => 0x0000_0400,
        11 => 0x0000_0800,
        12 => 0x0000_1000,
        13 => 0x0000_2000,
        15 => 0x0000_8000,
        16 => 0x0001_0000,
        17 => 0x0002_0000,
        18 => 0x0004_0000,
        19 => 0x0008_0000,
        20 => 0x0010_0000,
        _ => 0,
    }
}

// A word with the highest bit set allows every number whose bit it has.
fn allows(several: u32, number: u32) -> bool {
    (0x8000_0000 <= several) & (several & bit_of(number) != 0)
}

// A refusal's number, or one of several that are allowed.
fn told(body: &[u8], c: Cursor, number: u32) -> Cursor {
    if c.verdict != SAME {
        return c;
    }
    match number_at::<u32>(body, c.at, Endian::Little) {
        Some(n) => stepped(c, (n == number) | allows(n, number), 4),
        None => ended(c, MISSHAPEN),
    }
}

// Ours is an answer.
pub fn given(body: &[u8], c: Cursor) -> Cursor {
    word(body, c, 1)
}

// Ours is a refusal: the tally counts it as one.
pub fn as_refused(c: Cursor) -> Cursor {
    Cursor {
        at: c.at,
        verdict: c.verdict,
        refused: true,
    }
}

// Ours is a refusal.
pub fn refusal(body: &[u8], c: Cursor, why: Refusal) -> Cursor {
    let reason = why.reason;
    let d = word(body, as_refused(c), 0);
    told(body, d, number_of(reason))
}

// Ours is 8.
pub fn no_room(body: &[u8], c: Cursor) -> Cursor {
    let why = Refusal {
        reason: Reason::Room,
        place: 0,
    };
    refusal(body, c, why)
}

// A refused section: its number and place. One that may hold a root inside 16 others, where the Rust fails further on, is marked by 3.
pub fn refused_section(body: &[u8], c: Cursor, why: Refusal) -> Cursor {
    let reason = why.reason;
    let number = number_of(reason);
    let d = as_refused(c);
    let marked = word_of(body, c.at) == 3;
    if marked & (number == 7) {
        return ended(d, PASSED);
    }
    let first = if_marked(marked);
    let e = told(body, word(body, d, first), number);
    long(body, e, why.place)
}

// One that 4, 5 or 6 refuses: also the byte.
pub fn unread_section(body: &[u8], c: Cursor, why: Refusal, byte: u64) -> Cursor {
    long(body, refused_section(body, c, why), byte)
}

fn if_marked(marked: bool) -> u32 {
    if marked { 3 } else { 0 }
}

// The body is used up.
pub fn whole(body: &[u8], c: Cursor) -> Cursor {
    if c.verdict != SAME {
        return c;
    }
    if c.at == body.len() {
        c
    } else {
        ended(c, MISSHAPEN)
    }
}
