// Questions for unions: the members' records are words in the room. A small room is tried first.
use crate::cursor::{Cursor, bytes, count, given, low_word, no_room, refusal, word};
use crate::fields::{modifiers, name};
use attributes::decode::part;
use format::refusal::Unfilled;
use lent::cells::get_or;
use records::unions::{Union, process_union_tag};
use std::num::wrapping_add_usize;
use tables::table::Table;

// Word k of the record at a place of the room.
pub fn member_word(room: &[u64], at: usize, k: usize) -> u32 {
    low_word(get_or(room, wrapping_add_usize(at, k), 0))
}

pub fn member_part<'a>(s: &'a [u8], room: &[u64], at: usize, k: usize) -> &'a [u8] {
    let place = member_word(room, at, k);
    let length = member_word(room, at, wrapping_add_usize(k, 1));
    part(s, place as usize, length as usize)
}

// A flag and, where it is 1, the word after it.
fn optional(body: &[u8], c: Cursor, room: &[u64], at: usize, k: usize) -> Cursor {
    let flag = member_word(room, at, k);
    let d = word(body, c, flag);
    if flag == 1 {
        word(body, d, member_word(room, at, wrapping_add_usize(k, 1)))
    } else {
        d
    }
}

fn member_name(body: &[u8], c: Cursor, s: &[u8], room: &[u64], at: usize) -> Cursor {
    let flag = member_word(room, at, 1);
    let d = word(body, c, flag);
    if flag == 1 {
        bytes(body, d, member_part(s, room, at, 2))
    } else {
        d
    }
}

fn member_type(body: &[u8], c: Cursor, s: &[u8], room: &[u64], at: usize) -> Cursor {
    let kind = word(body, c, member_word(room, at, 4));
    let number = word(body, kind, member_word(room, at, 5));
    modifiers(
        body,
        number,
        member_part(s, room, at, 6),
        member_word(room, at, 8) == 1,
    )
}

fn member_bits(body: &[u8], c: Cursor, room: &[u64], at: usize) -> Cursor {
    let d = optional(body, c, room, at, 10);
    if member_word(room, at, 10) == 1 {
        word(body, d, member_word(room, at, 12))
    } else {
        d
    }
}

// The record at a place of the room.
fn member(body: &[u8], c: Cursor, s: &[u8], room: &[u64], at: usize) -> Cursor {
    let named = member_name(body, c, s, room, at);
    let typed = member_type(body, named, s, room, at);
    let placed = word(body, typed, member_word(room, at, 9));
    let seen = word(
        body,
        member_bits(body, placed, room, at),
        member_word(room, at, 13),
    );
    optional(body, seen, room, at, 14)
}

fn members(body: &[u8], c: Cursor, s: &[u8], room: &[u64], n: usize) -> Cursor {
    let mut d = c;
    let mut at: usize = 0;
    for _ in 0..n {
        d = member(body, d, s, room, at);
        at = wrapping_add_usize(at, 16);
    }
    d
}

fn union_words(body: &[u8], c: Cursor, s: &[u8], found: Union, room: &[u64]) -> Cursor {
    let named = found.name;
    let sized = word(body, name(body, c, s, named), found.byte_size);
    let listed = count(body, sized, found.members);
    members(body, listed, s, room, found.members)
}

// With room for all members that a section can have.
fn large_union(body: &[u8], c: Cursor, t: &Table<'_, '_>, key: u32) -> Cursor {
    let mut room = [0u64; 65536];
    match process_union_tag(t, key, &mut room) {
        Ok(found) => union_words(body, given(body, c), t.section, found, &room),
        Err(Unfilled::Refused(why)) => refusal(body, c, why),
        Err(Unfilled::Room(_)) => no_room(body, c),
    }
}

pub fn union_type(body: &[u8], c: Cursor, t: &Table<'_, '_>, key: u32) -> Cursor {
    let mut room = [0u64; 256];
    match process_union_tag(t, key, &mut room) {
        Ok(found) => union_words(body, given(body, c), t.section, found, &room),
        Err(Unfilled::Refused(why)) => refusal(body, c, why),
        Err(Unfilled::Room(_)) => large_union(body, c, t, key),
    }
}
