// Questions for enumerations: values in one room, places and lengths of names in another. Small rooms are tried first.
use crate::cursor::{Cursor, bytes, count, given, no_room, refusal, signed, word};
use crate::fields::name;
use attributes::decode::part;
use format::refusal::Unfilled;
use lent::cells::get_or;
use records::enumeration::{Enumeration, process_enumeration_tag};
use std::num::wrapping_add_usize;
use tables::table::Table;

// Member i, whose name stands at 2 i of the names.
fn member(body: &[u8], c: Cursor, s: &[u8], value: i32, names: &[u64], at: usize) -> Cursor {
    let place = get_or(names, at, 0) as usize;
    let length = get_or(names, wrapping_add_usize(at, 1), 0) as usize;
    bytes(body, signed(body, c, value), part(s, place, length))
}

fn members(body: &[u8], c: Cursor, s: &[u8], values: &[i32], names: &[u64], n: usize) -> Cursor {
    let mut d = c;
    let mut at: usize = 0;
    for i in 0..n {
        d = member(body, d, s, get_or(values, i, 0), names, at);
        at = wrapping_add_usize(at, 2);
    }
    d
}

fn enumeration_words(
    body: &[u8],
    c: Cursor,
    s: &[u8],
    found: Enumeration,
    values: &[i32],
    names: &[u64],
) -> Cursor {
    let named = found.name;
    let sized = word(body, name(body, c, s, named), found.byte_size);
    let listed = count(body, sized, found.members);
    members(body, listed, s, values, names, found.members)
}

// With room for 16,384 members.
fn large_enumeration(body: &[u8], c: Cursor, t: &Table<'_, '_>, key: u32) -> Cursor {
    let mut values = [0i32; 16384];
    let mut names = [0u64; 32768];
    match process_enumeration_tag(t, key, &mut values, &mut names) {
        Ok(found) => enumeration_words(body, given(body, c), t.section, found, &values, &names),
        Err(Unfilled::Refused(why)) => refusal(body, c, why),
        Err(Unfilled::Room(_)) => no_room(body, c),
    }
}

pub fn enumeration(body: &[u8], c: Cursor, t: &Table<'_, '_>, key: u32) -> Cursor {
    let mut values = [0i32; 16];
    let mut names = [0u64; 32];
    match process_enumeration_tag(t, key, &mut values, &mut names) {
        Ok(found) => enumeration_words(body, given(body, c), t.section, found, &values, &names),
        Err(Unfilled::Refused(why)) => refusal(body, c, why),
        Err(Unfilled::Room(_)) => large_enumeration(body, c, t, key),
    }
}
