// What a table holds: a row for each entry, an attribute for each attribute, and how many of each.
ghost use Rattle.std.specs.Prelude.{◌≡◌};
ghost use Rattle.tables.specs.Row.{row_at, attr_at, endian_of, ends_of, erased_row};

use attributes::decode::Endians;
use lent::cells::get_or;
use numbers::Endian;

// An entry: its key (the place where it begins), its kind (a tag), its flags, its run of attributes, the key of its unit.
#[derive(Clone, Copy)]
pub struct Row {
    pub key: u32,
    pub kind: u32,
    pub flags: u32,
    pub first: u32,
    pub count: u32,
    pub unit: u32,
}

// An attribute: its number, and the place of its value (the byte after the number).
#[derive(Clone, Copy)]
pub struct Attr {
    pub number: u32,
    pub value: u32,
}

#[derive(Clone, Copy)]
pub struct Counts {
    pub rows: usize,
    pub attrs: usize,
}

// The words of a row and of an attribute.
pub const ROW_WIDTH: usize = 6;

pub const ATTR_WIDTH: usize = 2;

// The three flags of the Rust's `Tag`: the bits of a row's flags.
pub const ERASED: u32 = 1;

pub const ERASED_ROOT: u32 = 2;

pub const LITTLE: u32 = 4;

// Row i of a table, all zeros where there is none. Of a row that is wholly there one look at the table's length is enough (docs/DESIGN.md, Speed).
#[tactic(auto, unfolding(crate::specs::Row::row_at))]
pub fn row_at(rows: &[u32], i: usize) -> Row
    ensures { result ≡ row_at rows.now i }
{
    if i < rows.len() / ROW_WIDTH {
        let at = i * ROW_WIDTH;
        Row {
            key: rows[at],
            kind: rows[at + 1],
            flags: rows[at + 2],
            first: rows[at + 3],
            count: rows[at + 4],
            unit: rows[at + 5],
        }
    } else if i < rows.len() {
        let at = i * ROW_WIDTH;
        Row {
            key: get_or(rows, at, 0),
            kind: get_or(rows, at + 1, 0),
            flags: get_or(rows, at + 2, 0),
            first: get_or(rows, at + 3, 0),
            count: get_or(rows, at + 4, 0),
            unit: get_or(rows, at + 5, 0),
        }
    } else {
        Row {
            key: 0,
            kind: 0,
            flags: 0,
            first: 0,
            count: 0,
            unit: 0,
        }
    }
}

// Attribute i of a table, all zeros where there is none; likewise.
#[tactic(auto, unfolding(crate::specs::Row::attr_at))]
pub fn attr_at(attrs: &[u32], i: usize) -> Attr
    ensures { result ≡ attr_at attrs.now i }
{
    if i < attrs.len() / ATTR_WIDTH {
        let at = i * ATTR_WIDTH;
        Attr {
            number: attrs[at],
            value: attrs[at + 1],
        }
    } else if i < attrs.len() {
        let at = i * ATTR_WIDTH;
        Attr {
            number: get_or(attrs, at, 0),
            value: get_or(attrs, at + 1, 0),
        }
    } else {
        Attr {
            number: 0,
            value: 0,
        }
    }
}

// The data endianness that flags say.
#[tactic(auto, unfolding(crate::specs::Row::endian_of))]
pub fn endian_of(flags: u32) -> Endian
    ensures { result ≡ endian_of flags }
{
    if flags / LITTLE % 2 == 1 {
        Endian::Little
    } else {
        Endian::Big
    }
}

// Was the entry erased?
#[tactic(auto, unfolding(crate::specs::Row::erased_row))]
pub fn is_erased(flags: u32) -> bool
    ensures { result ≡ erased_row flags }
{
    flags % 2 == 1
}

// The section's endianness and the row's own.
#[tactic(auto, unfolding(crate::specs::Row::ends_of))]
pub fn ends_of(e: Endian, rows: &[u32], i: usize) -> Endians
    ensures { result ≡ ends_of e rows.now i }
{
    let row = row_at(rows, i);
    Endians {
        section: e,
        data: endian_of(row.flags),
    }
}
