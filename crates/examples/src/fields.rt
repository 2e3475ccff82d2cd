// What records have in common: names, types, and what may be absent.
use crate::cursor::{Cursor, byte, bytes, count, flag, word};
use blocks::types::{Type, TypeKind, modifiers_of};
use format::modifier::{Modifier, parse_int};
use records::fields::{Text, text_part};

pub fn name(body: &[u8], c: Cursor, s: &[u8], name: Option<Text>) -> Cursor {
    match name {
        Some(text) => bytes(body, word(body, c, 1), text_part(s, text)),
        None => word(body, c, 0),
    }
}

pub fn option(body: &[u8], c: Cursor, ours: Option<u32>) -> Cursor {
    match ours {
        Some(n) => word(body, word(body, c, 1), n),
        None => word(body, c, 0),
    }
}

// 255 is no modifier's number.
pub fn modifier_number(m: Modifier) -> u8 {
    match m {
        Modifier::MwPointerTo => 0,
        Modifier::PointerTo => 1,
        Modifier::ReferenceTo => 2,
        Modifier::Const => 3,
        Modifier::Volatile => 4,
        Modifier::Unknown => 255,
    }
}

fn modifier_byte(body: &[u8], c: Cursor, raw: u8) -> Cursor {
    byte(body, c, modifier_number(parse_int(raw)))
}

fn modifier_bytes(body: &[u8], c: Cursor, raw: &[u8]) -> Cursor {
    let mut d = c;
    for &b in raw {
        d = modifier_byte(body, d, b);
    }
    d
}

// How many, each as its number, and whether a pointer is among them.
pub fn modifiers(body: &[u8], c: Cursor, raw: &[u8], pointer: bool) -> Cursor {
    let d = count(body, c, raw.len());
    flag(body, modifier_bytes(body, d, raw), pointer)
}

fn type_kind(body: &[u8], c: Cursor, kind: TypeKind) -> Cursor {
    match kind {
        TypeKind::Fundamental(number) => word(body, word(body, c, 0), number as u32),
        TypeKind::UserDefined(key) => word(body, word(body, c, 1), key),
    }
}

// A type that was read from s.
pub fn of_type(body: &[u8], c: Cursor, s: &[u8], of: Type) -> Cursor {
    let kind = of.kind;
    let d = type_kind(body, c, kind);
    modifiers(body, d, modifiers_of(s, of), of.pointer)
}
