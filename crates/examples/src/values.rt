// The values of attributes, and rows with all of theirs.
use crate::cursor::{Cursor, bytes, count, long, word};
use attributes::decode::{
    Endians, address, block2, block4, data2, data4, data8, reference, string,
};
use format::form_kind::{FormKind, form_of};
use numbers::Endian;
use std::num::wrapping_add_usize;
use tables::row::{Attr, Row, attr_at, endian_of, row_at};
use tables::table::Table;

pub fn attribute_number(n: u32) -> u16 {
    (n % 65536) as u16
}

// A value that is cut reads as 0; in a table that was read none is.
fn value(body: &[u8], c: Cursor, s: &[u8], at: usize, form: FormKind, ends: Endians) -> Cursor {
    match form {
        FormKind::Addr => word(body, c, address(s, at, ends).unwrap_or(0)),
        FormKind::Ref => word(body, c, reference(s, at, ends).unwrap_or(0)),
        FormKind::Block2 => bytes(body, c, block2(s, at, ends)),
        FormKind::Block4 => bytes(body, c, block4(s, at, ends)),
        FormKind::Data2 => word(body, c, data2(s, at, ends).unwrap_or(0) as u32),
        FormKind::Data4 => word(body, c, data4(s, at, ends).unwrap_or(0)),
        FormKind::Data8 => long(body, c, data8(s, at, ends).unwrap_or(0)),
        FormKind::String => bytes(body, c, string(s, at)),
        FormKind::Undefined => c,
    }
}

// An attribute's number and its value.
pub fn attribute(body: &[u8], c: Cursor, s: &[u8], attr: Attr, ends: Endians) -> Cursor {
    let number = attribute_number(attr.number);
    let d = word(body, c, attr.number);
    value(body, d, s, attr.value as usize, form_of(number), ends)
}

pub fn ends_by(e: Endian, flags: u32) -> Endians {
    Endians {
        section: e,
        data: endian_of(flags),
    }
}

// The attributes of a run.
fn attributes(body: &[u8], c: Cursor, t: &Table<'_, '_>, row: Row) -> Cursor {
    let ends = ends_by(t.settings.endian, row.flags);
    let first = row.first as usize;
    let n = row.count as usize;
    let mut d = c;
    for k in 0..n {
        d = attribute(
            body,
            d,
            t.section,
            attr_at(t.attrs, wrapping_add_usize(first, k)),
            ends,
        );
    }
    d
}

fn row(body: &[u8], c: Cursor, t: &Table<'_, '_>, row: Row) -> Cursor {
    let key = word(body, c, row.key);
    let kind = word(body, key, row.kind);
    let flags = word(body, kind, row.flags);
    let unit = word(body, flags, row.unit);
    let run = word(body, unit, row.count);
    attributes(body, run, t, row)
}

// How many rows and attributes, and each of them.
pub fn table_words(body: &[u8], c: Cursor, t: &Table<'_, '_>) -> Cursor {
    let mut d = count(body, count(body, c, t.counts.rows), t.counts.attrs);
    for i in 0..t.counts.rows {
        d = row(body, d, t, row_at(t.rows, i));
    }
    d
}
