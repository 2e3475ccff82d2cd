// The questions of a packet, one after the other. Those by key are about the last section before them.
use crate::alone::{attribute_type, block, fund_type, modifier};
use crate::cursor::{
    Cursor, as_refused, count, given, refused_section, start, unread_section, word, word_of,
};
use crate::enumerations::enumeration;
use crate::layouts::layout_of;
use crate::relations::{child_walk, first_type, lookup, next, sibling, size};
use crate::settings::{SIZES, settings_by, table};
use crate::single::{label, member, overlay_branch, ptr_to_member, typedef, variable};
use crate::tally::{fault, judge};
use crate::unions::union_type;
use crate::values::{attribute_number, table_words};
use attributes::decode::part;
use entries::section::{SectionError, read_debug_section};
use format::limits::{ATTRIBUTE_LIMIT, ENTRY_LIMIT};
use format::presets::MW_VENDORS;
use format::settings::Settings;
use numbers::number::bytes_there;
use std::num::wrapping_add_usize;
use tables::row::{ATTR_WIDTH, Counts, ROW_WIDTH};
use tables::table::Table;

// Where a packet stops being read: a question there has a wrong form.
const STOP: usize = 0;

// The body of the question at a place.
fn body_at(packet: &[u8], at: usize) -> &[u8] {
    let length = word_of(packet, wrapping_add_usize(at, 4)) as usize;
    part(packet, wrapping_add_usize(at, 8), length)
}

// Where it ends; its own place where the packet ends before.
fn end_at(packet: &[u8], at: usize) -> usize {
    let from = wrapping_add_usize(at, 8);
    let length = word_of(packet, wrapping_add_usize(at, 4)) as usize;
    if bytes_there(packet, from, length) {
        wrapping_add_usize(from, length)
    } else {
        at
    }
}

// The kinds that CASES.md numbers so.
fn is_by_key(kind: u32) -> bool {
    (2 <= kind) & (kind <= 16)
}

// Our answer to a question about a key, held against the case's.
fn by_key(body: &[u8], kind: u32, read: &Table<'_, '_>) -> Cursor {
    let key = word_of(body, 0);
    let c = start(4);
    let number = attribute_number(word_of(body, 4));
    match kind {
        2 => child_walk(body, c, read, key),
        3 => member(body, c, read, key),
        4 => union_type(body, c, read, key),
        5 => enumeration(body, c, read, key),
        6 => typedef(body, c, read, key),
        7 => variable(body, c, read, key),
        8 => label(body, c, read, key),
        9 => ptr_to_member(body, c, read, key),
        10 => overlay_branch(body, c, read, key),
        11 => size(body, c, read, key),
        12 => next(body, c, read, key),
        13 => sibling(body, c, read, key),
        14 => lookup(body, start(8), read, key, number),
        15 => first_type(body, c, read, key),
        _ => layout_of(body, c, read, key),
    }
}

// Where the next question is; or the end of what can be read.
fn judged(
    rt: &impl Print,
    packet: &[u8],
    at: usize,
    t: &mut [u64; 128],
    kind: u32,
    body: &[u8],
    c: Cursor,
) -> usize {
    if judge(rt, t, at, kind, body, c) {
        end_at(packet, at)
    } else {
        STOP
    }
}

fn ask_row(
    rt: &impl Print,
    packet: &[u8],
    at: usize,
    t: &mut [u64; 128],
    read: &Table<'_, '_>,
) -> usize {
    if end_at(packet, at) <= at {
        fault(rt, t, at, b"a question is longer than its packet");
        return STOP;
    }
    let kind = word_of(packet, at);
    let body = body_at(packet, at);
    let c = by_key(body, kind, read);
    judged(rt, packet, at, t, kind, body, c)
}

// The questions by key from a place on.
fn ask_rows(
    rt: &impl Print,
    packet: &[u8],
    from: usize,
    t: &mut [u64; 128],
    read: &Table<'_, '_>,
) -> usize {
    let mut at = from;
    while at < packet.len() {
        if !is_by_key(word_of(packet, at)) {
            return at;
        }
        let next = ask_row(rt, packet, at, t, read);
        if next <= at {
            return STOP;
        }
        at = next;
    }
    at
}

// A section that was read: its rows, then the questions about it.
fn section_read(
    rt: &impl Print,
    packet: &[u8],
    at: usize,
    t: &mut [u64; 128],
    c: Cursor,
    read: &Table<'_, '_>,
) -> usize {
    let body = body_at(packet, at);
    let d = table_words(body, given(body, c), read);
    let next = judged(rt, packet, at, t, 1, body, d);
    if next <= at {
        return STOP;
    }
    ask_rows(rt, packet, next, t, read)
}

// Ours is 8, for which a case has the word 2 and the counts that are needed.
fn over_limits(body: &[u8], c: Cursor, needed: Counts) -> Cursor {
    let rows = count(body, word(body, as_refused(c), 2), needed.rows);
    count(body, rows, needed.attrs)
}

// With tables of the largest size.
fn large_section(
    rt: &impl Print,
    packet: &[u8],
    at: usize,
    t: &mut [u64; 128],
    c: Cursor,
    s: &[u8],
    settings: Settings,
) -> usize {
    let body = body_at(packet, at);
    let mut rows = [0u32; ENTRY_LIMIT * ROW_WIDTH];
    let mut attrs = [0u32; ATTRIBUTE_LIMIT * ATTR_WIDTH];
    match read_debug_section(s, settings, &MW_VENDORS, &SIZES, &mut rows, &mut attrs) {
        Ok(counts) => {
            let read = table(s, settings, &rows, &attrs, counts);
            section_read(rt, packet, at, t, c, &read)
        }
        Err(SectionError::Refused(why)) => {
            judged(rt, packet, at, t, 1, body, refused_section(body, c, why))
        }
        Err(SectionError::Unread { why, byte }) => {
            judged(
                rt,
                packet,
                at,
                t,
                1,
                body,
                unread_section(body, c, why, byte),
            )
        }
        Err(SectionError::Room(needed)) => judged(
            rt,
            packet,
            at,
            t,
            1,
            body,
            over_limits(body, c, needed),
        ),
    }
}

// With small tables first.
fn small_section(
    rt: &impl Print,
    packet: &[u8],
    at: usize,
    t: &mut [u64; 128],
    c: Cursor,
    s: &[u8],
    settings: Settings,
) -> usize {
    let body = body_at(packet, at);
    let mut rows = [0u32; 64 * ROW_WIDTH];
    let mut attrs = [0u32; 256 * ATTR_WIDTH];
    match read_debug_section(s, settings, &MW_VENDORS, &SIZES, &mut rows, &mut attrs) {
        Ok(counts) => {
            let read = table(s, settings, &rows, &attrs, counts);
            section_read(rt, packet, at, t, c, &read)
        }
        Err(SectionError::Refused(why)) => {
            judged(rt, packet, at, t, 1, body, refused_section(body, c, why))
        }
        Err(SectionError::Unread { why, byte }) => {
            judged(
                rt,
                packet,
                at,
                t,
                1,
                body,
                unread_section(body, c, why, byte),
            )
        }
        Err(SectionError::Room(_)) => large_section(rt, packet, at, t, c, s, settings),
    }
}

// Its settings and its bytes, then the answer.
fn ask_section(rt: &impl Print, packet: &[u8], at: usize, t: &mut [u64; 128]) -> usize {
    let body = body_at(packet, at);
    let settings = settings_by(word_of(body, 0));
    let length = word_of(body, 4) as usize;
    let s = part(body, 8, length);
    let c = start(wrapping_add_usize(8, length));
    small_section(rt, packet, at, t, c, s, settings)
}

// A question that needs no section.
fn ask_alone(rt: &impl Print, packet: &[u8], at: usize, t: &mut [u64; 128], kind: u32) -> usize {
    let body = body_at(packet, at);
    match kind {
        20 | 21 | 22 | 23 | 25 | 26 => judged(rt, packet, at, t, kind, body, block(body, kind)),
        24 => judged(rt, packet, at, t, kind, body, attribute_type(body)),
        27 => judged(rt, packet, at, t, kind, body, fund_type(body)),
        28 => judged(rt, packet, at, t, kind, body, modifier(body)),
        _ => {
            fault(
                rt,
                t,
                at,
                b"no such question, or one by key without a section before it",
            );
            STOP
        }
    }
}

// The question at a place, with those by key that follow a section.
fn ask(rt: &impl Print, packet: &[u8], at: usize, t: &mut [u64; 128]) -> usize {
    if end_at(packet, at) <= at {
        fault(rt, t, at, b"a question is longer than its packet");
        return STOP;
    }
    let kind = word_of(packet, at);
    if kind == 1 {
        ask_section(rt, packet, at, t)
    } else {
        ask_alone(rt, packet, at, t, kind)
    }
}

// All questions of a packet.
pub fn ask_all(rt: &impl Print, packet: &[u8], t: &mut [u64; 128]) {
    let mut at: usize = 0;
    while at < packet.len() {
        let next = ask(rt, packet, at, t);
        if next <= at {
            return;
        }
        at = next;
    }
}
