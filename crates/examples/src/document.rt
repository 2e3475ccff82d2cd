// Document 01's types, modifiers and erased entry, and attributes whose values are cut, run through the code: what it answers is printed, and rt compares that
// with the file stdout.
use crate::tally::{decimal, hex, text};
use attributes::read::read_attribute;
use attributes::value::Unread;
use format::modifier::Modifier;
use numbers::Endian;

fn word(rt: &impl Print, words: &[u8]) {
    text(rt, words);
}

fn number(rt: &impl Print, n: usize) {
    decimal(rt, n as u64);
}

fn show_type(rt: &impl Print, n: u16) {
    word(rt, b"type ");
    hex(rt, n as u64, 4);
    match format::fund_type::parse_int(n) {
        Some(t) => {
            word(rt, b" is ");
            hex(rt, t as u64, 4);
            word(rt, b"\n");
        }
        None => word(rt, b": refused 18\n"),
    }
}

fn show_modifier(rt: &impl Print, n: u8) {
    word(rt, b"modifier ");
    hex(rt, n as u64, 2);
    match format::modifier::parse_int(n) {
        Modifier::MwPointerTo => word(rt, b" is MwPointerTo\n"),
        Modifier::PointerTo => word(rt, b" is PointerTo\n"),
        Modifier::ReferenceTo => word(rt, b" is ReferenceTo\n"),
        Modifier::Const => word(rt, b" is Const\n"),
        Modifier::Volatile => word(rt, b" is Volatile\n"),
        Modifier::Unknown => word(rt, b": refused 18\n"),
    }
}

fn show_attribute(rt: &impl Print, s: &[u8], at: usize, e: Endian, vendors: &[u16]) {
    word(rt, b"attribute at ");
    number(rt, at);
    match read_attribute(s, at, e, vendors) {
        Ok(found) => {
            word(rt, b": ");
            hex(rt, found.number as u64, 4);
            word(rt, b", value at ");
            number(rt, found.value);
            word(rt, b", next at ");
            number(rt, found.next);
        }
        Err(Unread::Short(field)) => {
            word(rt, b": short, field at ");
            number(rt, field);
        }
        Err(Unread::Unknown(field)) => {
            word(rt, b": unknown, field at ");
            number(rt, field);
        }
    }
    word(rt, b"\n");
}

// The attributes of document 01's erased entry, name A and type 7, little-endian; then the same bytes read big-endian.
fn erased_entry(rt: &impl Print) {
    let s = b"\x38\x00\x41\x00\x55\x00\x07\x00";
    let none = [0u16; 0];
    show_attribute(rt, s, 0, Endian::Little, &none);
    show_attribute(rt, s, 4, Endian::Little, &none);
    show_attribute(rt, s, 8, Endian::Little, &none);
    show_attribute(rt, s, 0, Endian::Big, &none);
}

// Blocks, a vendor number, and values that are cut: of a block its length or its bytes, of a text its zero.
fn cut_values(rt: &impl Print) {
    let s = b"\x00\x23\x00\x02\x04\x07\x20\x22\x00\x00\x00\x2a\x00\x38\x41";
    let vendors = [0x2022u16; 1];
    show_attribute(rt, s, 0, Endian::Big, &vendors);
    show_attribute(rt, s, 6, Endian::Big, &vendors);
    show_attribute(rt, s, 12, Endian::Big, &vendors);
    show_attribute(rt, b"\x00\x23\x00", 0, Endian::Big, &vendors);
    show_attribute(rt, b"\x00\x23\x00\x02\x04", 0, Endian::Big, &vendors);
}

// All of them.
pub fn run(rt: &impl Print) {
    show_type(rt, 0x0108);
    show_type(rt, 0x8108);
    show_type(rt, 0x0113);
    show_modifier(rt, 0x81);
    show_modifier(rt, 0x85);
    erased_entry(rt);
    cut_values(rt);
}
