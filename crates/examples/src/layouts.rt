// Questions for layouts: the structure's size, and offset, size and name of each member, which are words in the room. A small room is tried first.
use crate::cursor::{Cursor, bytes, count, given, no_room, refusal, word};
use crate::unions::{member_part, member_word};
use format::refusal::Unfilled;
use layout::one::{Layout, layout_of_key};
use std::num::wrapping_add_usize;
use tables::table::Table;

// The member at a place of the room.
fn laid(body: &[u8], c: Cursor, s: &[u8], room: &[u64], at: usize) -> Cursor {
    let placed = word(body, c, member_word(room, at, 0));
    let sized = word(body, placed, member_word(room, at, 1));
    bytes(body, sized, member_part(s, room, at, 2))
}

fn all_laid(body: &[u8], c: Cursor, s: &[u8], room: &[u64], n: usize) -> Cursor {
    let mut d = c;
    let mut at: usize = 0;
    for _ in 0..n {
        d = laid(body, d, s, room, at);
        at = wrapping_add_usize(at, 4);
    }
    d
}

fn layout_words(body: &[u8], c: Cursor, s: &[u8], found: Layout, room: &[u64]) -> Cursor {
    let sized = word(body, c, found.size);
    let listed = count(body, sized, found.members);
    all_laid(body, listed, s, room, found.members)
}

// With room for all members that a section can have.
fn large_layout(body: &[u8], c: Cursor, t: &Table<'_, '_>, key: u32) -> Cursor {
    let mut room = [0u64; 16384];
    match layout_of_key(t, key, &mut room) {
        Ok(found) => layout_words(body, given(body, c), t.section, found, &room),
        Err(Unfilled::Refused(why)) => refusal(body, c, why),
        Err(Unfilled::Room(_)) => no_room(body, c),
    }
}

pub fn layout_of(body: &[u8], c: Cursor, t: &Table<'_, '_>, key: u32) -> Cursor {
    let mut room = [0u64; 256];
    match layout_of_key(t, key, &mut room) {
        Ok(found) => layout_words(body, given(body, c), t.section, found, &room),
        Err(Unfilled::Refused(why)) => refusal(body, c, why),
        Err(Unfilled::Room(_)) => large_layout(body, c, t, key),
    }
}
