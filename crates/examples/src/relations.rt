// Questions for children, neighbours, lookups and sizes.
use crate::cursor::{Cursor, bytes, count, given, no_room, refusal, word};
use crate::values::{attribute as attribute_words, ends_by};
use attributes::decode::Extent;
use format::refusal::{Refusal, Unfilled};
use lent::cells::get_or;
use links::children::children;
use links::neighbour::{next_sibling, next_tag};
use links::typed::{
    address_attribute, attribute, block_attribute, block_place, data2_attribute, data4_attribute,
    reference_attribute, string_attribute, string_place, type_attribute,
};
use sizes::size::size_of_key;
use tables::row::row_at;
use tables::table::Table;

fn child_keys(body: &[u8], c: Cursor, rows: &[u32], room: &[u32], n: usize) -> Cursor {
    let mut d = count(body, c, n);
    for i in 0..n {
        let child = row_at(rows, get_or(room, i, 0) as usize);
        d = word(body, d, child.key);
    }
    d
}

// With room for all children that a section can have.
fn many_children(body: &[u8], c: Cursor, t: &Table<'_, '_>, key: u32) -> Cursor {
    let mut room = [0u32; 4096];
    match children(t, key, &mut room) {
        Ok(n) => child_keys(body, given(body, c), t.rows, &room, n),
        Err(Unfilled::Refused(why)) => refusal(body, c, why),
        Err(Unfilled::Room(_)) => no_room(body, c),
    }
}

pub fn child_walk(body: &[u8], c: Cursor, t: &Table<'_, '_>, key: u32) -> Cursor {
    let mut room = [0u32; 16];
    match children(t, key, &mut room) {
        Ok(n) => child_keys(body, given(body, c), t.rows, &room, n),
        Err(Unfilled::Refused(why)) => refusal(body, c, why),
        Err(Unfilled::Room(_)) => many_children(body, c, t, key),
    }
}

fn neighbour(
    body: &[u8],
    c: Cursor,
    rows: &[u32],
    found: Result<Option<usize>, Refusal>,
) -> Cursor {
    match found {
        Ok(Some(i)) => {
            let row = row_at(rows, i);
            word(body, word(body, given(body, c), 1), row.key)
        }
        Ok(None) => word(body, given(body, c), 0),
        Err(why) => refusal(body, c, why),
    }
}

pub fn next(body: &[u8], c: Cursor, t: &Table<'_, '_>, key: u32) -> Cursor {
    let found = next_tag(t, key);
    neighbour(body, c, t.rows, found)
}

pub fn sibling(body: &[u8], c: Cursor, t: &Table<'_, '_>, key: u32) -> Cursor {
    let found = next_sibling(t, key);
    neighbour(body, c, t.rows, found)
}

pub fn first_type(body: &[u8], c: Cursor, t: &Table<'_, '_>, key: u32) -> Cursor {
    match type_attribute(t, key) {
        Ok(Some(attr)) => word(body, word(body, given(body, c), 1), attr.number),
        Ok(None) => word(body, given(body, c), 0),
        Err(why) => refusal(body, c, why),
    }
}

// An attribute that is there: its number, and then what it says.
fn found(body: &[u8], c: Cursor, number: u16) -> Cursor {
    word(body, word(body, given(body, c), 1), number as u32)
}

fn looked_word(body: &[u8], c: Cursor, number: u16, value: Result<Option<u32>, Refusal>) -> Cursor {
    match value {
        Ok(Some(n)) => word(body, found(body, c, number), n),
        Ok(None) => word(body, given(body, c), 0),
        Err(why) => refusal(body, c, why),
    }
}

// A text or a block, and where it lies.
fn looked_part(
    body: &[u8],
    c: Cursor,
    number: u16,
    ours: &[u8],
    placed: Result<Option<Extent>, Refusal>,
) -> Cursor {
    match placed {
        Ok(Some(_)) => bytes(body, found(body, c, number), ours),
        Ok(None) => word(body, given(body, c), 0),
        Err(why) => refusal(body, c, why),
    }
}

fn looked_string(body: &[u8], c: Cursor, t: &Table<'_, '_>, key: u32, number: u16) -> Cursor {
    let ours = string_attribute(t, key, number);
    let placed = string_place(t, key, number);
    looked_part(body, c, number, ours, placed)
}

fn looked_block(body: &[u8], c: Cursor, t: &Table<'_, '_>, key: u32, number: u16) -> Cursor {
    let ours = block_attribute(t, key, number);
    let placed = block_place(t, key, number);
    looked_part(body, c, number, ours, placed)
}

// An attribute whose form has no lookup of its own.
fn looked_at(body: &[u8], c: Cursor, t: &Table<'_, '_>, key: u32, number: u16) -> Cursor {
    match attribute(t, key, number) {
        Ok(Some(attr)) => {
            let e = t.settings.endian;
            let flags = flags_of(t.rows, t.counts.rows, key);
            attribute_words(
                body,
                word(body, given(body, c), 1),
                t.section,
                attr,
                ends_by(e, flags),
            )
        }
        Ok(None) => word(body, given(body, c), 0),
        Err(why) => refusal(body, c, why),
    }
}

// The flags of the row that has a key.
fn flags_of(rows: &[u32], n: usize, key: u32) -> u32 {
    let mut flags: u32 = 0;
    for i in 0..n {
        let row = row_at(rows, i);
        if row.key == key {
            flags = row.flags;
        }
    }
    flags
}

// What the lookup of a number's form answers, for the forms that are one word.
fn value_of(t: &Table<'_, '_>, key: u32, number: u16) -> Result<Option<u32>, Refusal> {
    let form = number % 16;
    if form == 1 {
        return address_attribute(t, key, number);
    }
    if form == 2 {
        return reference_attribute(t, key, number);
    }
    if form == 5 {
        return data2_attribute(t, key, number);
    }
    data4_attribute(t, key, number)
}

// The first attribute of a number: by the lookup of its form.
pub fn lookup(body: &[u8], c: Cursor, t: &Table<'_, '_>, key: u32, number: u16) -> Cursor {
    let form = number % 16;
    if form == 8 {
        return looked_string(body, c, t, key, number);
    }
    if (form == 3) | (form == 4) {
        return looked_block(body, c, t, key, number);
    }
    if form == 7 {
        return looked_at(body, c, t, key, number);
    }
    let value = value_of(t, key, number);
    looked_word(body, c, number, value)
}

pub fn size(body: &[u8], c: Cursor, t: &Table<'_, '_>, key: u32) -> Cursor {
    match size_of_key(t, key) {
        Ok(n) => word(body, given(body, c), n),
        Err(why) => refusal(body, c, why),
    }
}
