// Refusals that the comparison with the Rust does not show: it never ends there, or needs no room. What is answered is printed, as of document 01's examples.
use crate::settings::{SIZES, settings_by, table};
use crate::tally::{decimal, text};
use entries::section::read_debug_section;
use format::presets::MW_VENDORS;
use format::refusal::{Refusal, Unfilled, number_of};
use layout::one::layout_of_key;
use records::enumeration::process_enumeration_tag;
use records::typedef::process_typedef_tag;
use records::unions::process_union_tag;
use sizes::size::size_of_key;
use tables::row::{Counts, ROW_WIDTH};
use tables::table::Table;

fn answered(rt: &impl Print) {
    text(rt, b": an answer\n");
}

fn refused(rt: &impl Print, why: Refusal) {
    let reason = why.reason;
    text(rt, b": refused ");
    decimal(rt, number_of(reason) as u64);
    text(rt, b" at ");
    decimal(rt, why.place);
    text(rt, b"\n");
}

fn no_room(rt: &impl Print, needed: usize) {
    text(rt, b": refused 8, needs ");
    decimal(rt, needed as u64);
    text(rt, b"\n");
}

// A section's rows and attributes; an unread one has none.
fn read<'a>(s: &'a [u8], rows: &'a mut [u32], attrs: &'a mut [u32]) -> Table<'a, 'a> {
    let settings = settings_by(0);
    let counts = match read_debug_section(s, settings, &MW_VENDORS, &SIZES, rows, attrs) {
        Ok(counts) => counts,
        Err(_) => Counts { rows: 0, attrs: 0 },
    };
    table(s, settings, rows, attrs, counts)
}

fn typedef_of_itself(rt: &impl Print) {
    let s = b"\x00\x00\x00\x0c\x00\x16\x02\xb2\x00\x00\x00\x00";
    let mut rows = [0u32; ROW_WIDTH];
    let mut attrs = [0u32; 2];
    let t = read(s, &mut rows, &mut attrs);
    text(rt, b"typedef that specifies itself");
    match process_typedef_tag(&t, 0) {
        Ok(_) => answered(rt),
        Err(why) => refused(rt, why),
    }
}

fn array_of_itself(rt: &impl Print) {
    let s = b"\x00\x00\x00\x11\x00\x01\x00\xa3\x00\x07\x08\x00\x72\x00\x00\x00\x00";
    let mut rows = [0u32; ROW_WIDTH];
    let mut attrs = [0u32; 2];
    let t = read(s, &mut rows, &mut attrs);
    text(rt, b"size of an array of itself");
    match size_of_key(&t, 0) {
        Ok(_) => answered(rt),
        Err(why) => refused(rt, why),
    }
}

// A union of four bytes with one member.
fn union_with_no_room(rt: &impl Print) {
    let s =
        b"\x00\x00\x00\x12\x00\x17\x00\x12\x00\x00\x00\x26\x00\xb6\x00\x00\x00\x04\x00\x00\x00\x14\x00\x0d\x00\x55\x00\x07\x00\x23\x00\x06\x04\x00\x00\x00\x00\x07";
    let mut rows = [0u32; 2 * ROW_WIDTH];
    let mut attrs = [0u32; 8];
    let t = read(s, &mut rows, &mut attrs);
    let mut room = [0u64; 0];
    text(rt, b"union with no room");
    match process_union_tag(&t, 0, &mut room) {
        Ok(_) => answered(rt),
        Err(Unfilled::Refused(why)) => refused(rt, why),
        Err(Unfilled::Room(needed)) => no_room(rt, needed),
    }
}

// An enumeration of four bytes with one member, 1, named A.
fn enumeration_with_no_room(rt: &impl Print) {
    let s =
        b"\x00\x00\x00\x18\x00\x04\x00\xb6\x00\x00\x00\x04\x00\xf4\x00\x00\x00\x06\x00\x00\x00\x01\x41\x00";
    let mut rows = [0u32; ROW_WIDTH];
    let mut attrs = [0u32; 4];
    let t = read(s, &mut rows, &mut attrs);
    let mut values = [0i32; 0];
    let mut names = [0u64; 0];
    text(rt, b"enumeration with no room");
    match process_enumeration_tag(&t, 0, &mut values, &mut names) {
        Ok(_) => answered(rt),
        Err(Unfilled::Refused(why)) => refused(rt, why),
        Err(Unfilled::Room(needed)) => no_room(rt, needed),
    }
}

// A structure with one member.
fn layout_with_no_room(rt: &impl Print) {
    let s =
        b"\x00\x00\x00\x0c\x00\x13\x00\x12\x00\x00\x00\x20\x00\x00\x00\x14\x00\x0d\x00\x55\x00\x07\x00\x23\x00\x06\x04\x00\x00\x00\x00\x07";
    let mut rows = [0u32; 2 * ROW_WIDTH];
    let mut attrs = [0u32; 6];
    let t = read(s, &mut rows, &mut attrs);
    let mut room = [0u64; 0];
    text(rt, b"layout with no room");
    match layout_of_key(&t, 0, &mut room) {
        Ok(_) => answered(rt),
        Err(Unfilled::Refused(why)) => refused(rt, why),
        Err(Unfilled::Room(needed)) => no_room(rt, needed),
    }
}

// All of them.
pub fn run(rt: &impl Print) {
    typedef_of_itself(rt);
    array_of_itself(rt);
    union_with_no_room(rt);
    enumeration_with_no_room(rt);
    layout_with_no_room(rt);
}
