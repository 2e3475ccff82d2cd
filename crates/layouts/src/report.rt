// What the program prints. For a section that is read and each of its structures and classes, in file order:
//
//     00000012 structure Crane
//       unit 00000000 crane.cp
//       size 24
//       member 0 4 height
//       hole 4 4
//       member 8 16 load
//
// or `refused N at KEY` in place of the size. A unit is told by its key and its name, the source file; `unit -` where there is none. Numbers are decimal but for
// keys; `member`, `hole` and `padding` are followed by offset and size in bytes. Where a base or another child that is no member may take bytes, a stretch without
// members is `no member`. A structure without ByteSize has `largest end` in place of `size`, or is `declared only` where it has no children either. A section that
// is refused has one line alone, `refused N at KEY`; where a field could not be read or was not known ` byte PLACE` follows, its first byte, written as keys are.
use crate::gaps::{Gap, Stretch, gap_between, is_byteless, reach_with, stretch_of};
use crate::out::{flush, put_decimal, put_hex, put_name, put_text};
use crate::presets::Preset;
use crate::rooms::{attribute_room, child_room, member_room, row_room, structure_room};
use crate::words::{Placed, Structure, placed_at, structure_at};
use attributes::decode::{Extent, part};
use entries::section::{SectionError, read_debug_section};
use format::attribute_kind::{BYTE_SIZE, NAME};
use format::limits::{ATTRIBUTE_LIMIT, ENTRY_LIMIT};
use format::presets::{mw_vendors, rust_sizes};
use format::refusal::{Reason, Refusal, Unfilled, number_of};
use format::tag_kind::CLASS_TYPE;
use layout::all::{STRUCTURE_WIDTH, all_layouts};
use layout::one::LAID_WIDTH;
use lent::cells::get_or;
use links::children::children;
use links::typed::{data4_attribute, string_place};
use tables::row::{Row, row_at};
use tables::table::Table;
use tables::unit::NO_UNIT;

// 'refused N at KEY'
fn put_refused(rt: &impl Print, buffer: &mut [u8], used: usize, number: u64, place: u64) -> usize {
    let at = put_text(rt, buffer, used, b"refused ");
    let at = put_decimal(rt, buffer, at, number);
    let at = put_text(rt, buffer, at, b" at ");
    put_hex(rt, buffer, at, place, 8)
}

// The same as a line.
fn put_refusal(rt: &impl Print, buffer: &mut [u8], used: usize, number: u64, place: u64) -> usize {
    let at = put_refused(rt, buffer, used, number, place);
    put_text(rt, buffer, at, b"\n")
}

// A section that is refused: that line alone.
fn report_refusal(rt: &impl Print, why: Refusal) {
    let mut buffer = [0u8; 64];
    let reason = why.reason;
    let used = put_refusal(rt, &mut buffer, 0, number_of(reason) as u64, why.place);
    flush(rt, &buffer, used);
}

// The same with the first byte of the field: a hex viewer finds it there.
fn report_unread(rt: &impl Print, why: Refusal, byte: u64) {
    let mut buffer = [0u8; 64];
    let reason = why.reason;
    let at = put_refused(rt, &mut buffer, 0, number_of(reason) as u64, why.place);
    let at = put_text(rt, &mut buffer, at, b" byte ");
    let at = put_hex(rt, &mut buffer, at, byte, 8);
    let used = put_text(rt, &mut buffer, at, b"\n");
    flush(rt, &buffer, used);
}

// ' WORD NEEDED of ALLOWED'
fn put_need(
    rt: &impl Print,
    buffer: &mut [u8],
    used: usize,
    word: &[u8],
    needed: u64,
    allowed: u64,
) -> usize {
    let at = put_text(rt, buffer, used, b" ");
    let at = put_text(rt, buffer, at, word);
    let at = put_text(rt, buffer, at, b" ");
    let at = put_decimal(rt, buffer, at, needed);
    let at = put_text(rt, buffer, at, b" of ");
    put_decimal(rt, buffer, at, allowed)
}

// Refusal 8, and on a line of its own what is needed, each of so many that are allowed.
fn report_room(
    rt: &impl Print,
    first: &[u8],
    needed: u64,
    allowed: u64,
    second: &[u8],
    more: u64,
    most: u64,
) {
    let mut buffer = [0u8; 256];
    let reason = Reason::Room;
    let at = put_refusal(rt, &mut buffer, 0, number_of(reason) as u64, 0);
    let at = put_text(rt, &mut buffer, at, b"  needed");
    let at = put_need(rt, &mut buffer, at, first, needed, allowed);
    let at = put_need(rt, &mut buffer, at, second, more, most);
    let used = put_text(rt, &mut buffer, at, b"\n");
    flush(rt, &buffer, used);
}

// An input that is longer than the program's room.
pub fn report_long(rt: &impl Print) {
    let mut buffer = [0u8; 128];
    let reason = Reason::Room;
    let at = put_refusal(rt, &mut buffer, 0, number_of(reason) as u64, 0);
    let used = put_text(rt, &mut buffer, at, b"  needed more than 1048576 bytes\n");
    flush(rt, &buffer, used);
}

// A row that has a layout is a class or a structure.
fn put_kind(rt: &impl Print, buffer: &mut [u8], used: usize, kind: u32) -> usize {
    if kind == CLASS_TYPE as u32 {
        put_text(rt, buffer, used, b" class")
    } else {
        put_text(rt, buffer, used, b" structure")
    }
}

// 'KEY structure NAME' or 'KEY class NAME'
fn put_head(
    rt: &impl Print,
    buffer: &mut [u8],
    used: usize,
    key: u32,
    kind: u32,
    name: &[u8],
) -> usize {
    let at = put_hex(rt, buffer, used, key as u64, 8);
    let at = put_kind(rt, buffer, at, kind);
    let at = put_name(rt, buffer, at, name);
    put_text(rt, buffer, at, b"\n")
}

// A word and two numbers.
fn put_place(
    rt: &impl Print,
    buffer: &mut [u8],
    used: usize,
    text: &[u8],
    offset: u64,
    bytes: u64,
) -> usize {
    let at = put_text(rt, buffer, used, text);
    let at = put_decimal(rt, buffer, at, offset);
    let at = put_text(rt, buffer, at, b" ");
    put_decimal(rt, buffer, at, bytes)
}

// A line for a hole or padding, none where there is none.
fn put_gap(
    rt: &impl Print,
    buffer: &mut [u8],
    used: usize,
    text: &[u8],
    gap: Option<Gap>,
) -> usize {
    match gap {
        Some(gap) => {
            let end = put_place(rt, buffer, used, text, gap.at, gap.bytes);
            put_text(rt, buffer, end, b"\n")
        }
        None => used,
    }
}

// 'member OFFSET SIZE NAME'
fn put_member(rt: &impl Print, s: &[u8], member: Placed, buffer: &mut [u8], used: usize) -> usize {
    let name = part(s, member.name_place as usize, member.name_length as usize);
    let end = put_place(
        rt,
        buffer,
        used,
        b"  member ",
        member.offset as u64,
        member.size as u64,
    );
    let end = put_name(rt, buffer, end, name);
    put_text(rt, buffer, end, b"\n")
}

// The line of a stretch without members, by what it is called.
fn put_stretch(
    rt: &impl Print,
    buffer: &mut [u8],
    used: usize,
    others: bool,
    last: bool,
    gap: Option<Gap>,
) -> usize {
    match stretch_of(others, last) {
        Stretch::Hole => put_gap(rt, buffer, used, b"  hole ", gap),
        Stretch::Padding => put_gap(rt, buffer, used, b"  padding ", gap),
        Stretch::Bare => put_gap(rt, buffer, used, b"  no member ", gap),
    }
}

// How many bytes of the buffer are used, and what the members have reached.
#[derive(Clone, Copy)]
struct Shown {
    used: usize,
    reached: u64,
}

// A member, and the stretch before it.
fn show_member(
    rt: &impl Print,
    s: &[u8],
    member: Placed,
    others: bool,
    buffer: &mut [u8],
    shown: Shown,
) -> Shown {
    let gap = gap_between(shown.reached, member.offset);
    let used = put_stretch(rt, buffer, shown.used, others, false, gap);
    Shown {
        used: put_member(rt, s, member, buffer, used),
        reached: reach_with(shown.reached, member.offset, member.size),
    }
}

// Those of one structure: `count` members from number `first` on.
fn show_members(
    rt: &impl Print,
    s: &[u8],
    members: &[u64],
    first: u32,
    count: u32,
    others: bool,
    buffer: &mut [u8],
    used: usize,
) -> Shown {
    let mut shown = Shown { used, reached: 0 };
    for k in 0..count {
        let member = placed_at(members, first, k);
        shown = show_member(rt, s, member, others, buffer, shown);
    }
    shown
}

// What a structure's row says beside its members: whether it has a ByteSize, whether it has children, whether some that are no members may take bytes.
#[derive(Clone, Copy)]
struct Around {
    sized: bool,
    children: bool,
    others: bool,
}

// A size that the compiler says, or the largest member end, which the compiler does not say.
fn put_size_word(rt: &impl Print, buffer: &mut [u8], used: usize, sized: bool) -> usize {
    if sized {
        put_text(rt, buffer, used, b"  size ")
    } else {
        put_text(rt, buffer, used, b"  largest end ")
    }
}

fn put_size(rt: &impl Print, buffer: &mut [u8], used: usize, sized: bool, size: u32) -> usize {
    let end = put_size_word(rt, buffer, used, sized);
    let end = put_decimal(rt, buffer, end, size as u64);
    put_text(rt, buffer, end, b"\n")
}

// The same, or that there is only a declaration.
fn put_measure(
    rt: &impl Print,
    buffer: &mut [u8],
    used: usize,
    around: Around,
    size: u32,
) -> usize {
    if around.sized | around.children {
        put_size(rt, buffer, used, around.sized, size)
    } else {
        put_text(rt, buffer, used, b"  declared only\n")
    }
}

// The size, the members with their holes, the padding.
fn put_layout(
    rt: &impl Print,
    s: &[u8],
    structure: Structure,
    around: Around,
    members: &[u64],
    buffer: &mut [u8],
    used: usize,
) -> usize {
    let end = put_measure(rt, buffer, used, around, structure.size);
    let others = around.others;
    let shown = show_members(
        rt,
        s,
        members,
        structure.first,
        structure.members,
        others,
        buffer,
        end,
    );
    let gap = gap_between(shown.reached, structure.size);
    put_stretch(rt, buffer, shown.used, others, true, gap)
}

// May a child of this row's kind take bytes?
fn may_take(rows: &[u32], c: u32) -> bool {
    let row = row_at(rows, c as usize);
    !is_byteless((row.kind % 65536) as u16)
}

// May one of the first k children?
fn some_take(rows: &[u32], children: &[u32], k: usize) -> bool {
    for i in 0..k {
        if may_take(rows, get_or(children, i, 0)) {
            return true;
        }
    }
    false
}

// What a structure's row says beside its members.
fn look_around(t: &Table<'_, '_>, key: u32, room: &mut [u32]) -> Around {
    let sized = matches!(data4_attribute(t, key, BYTE_SIZE), Ok(Some(_)));
    match children(t, key, room) {
        Ok(k) => Around {
            sized,
            children: 0 < k,
            others: some_take(t.rows, room, k),
        },
        Err(_) => Around {
            sized,
            children: true,
            others: true,
        },
    }
}

// A unit, and where its name lies in the section; it is empty where it has none.
#[derive(Clone, Copy)]
struct Unit {
    key: u32,
    name: Extent,
}

// A unit without a name; also what stands for no unit.
fn unnamed(key: u32) -> Unit {
    Unit {
        key,
        name: Extent {
            place: 0,
            length: 0,
        },
    }
}

// The unit of that key: the last one, or it is looked up.
fn unit_named(t: &Table<'_, '_>, key: u32, last: Unit) -> Unit {
    if key == last.key {
        return last;
    }
    match string_place(t, key, NAME) {
        Ok(Some(name)) => Unit { key, name },
        _ => unnamed(key),
    }
}

// 'unit KEY NAME', or 'unit -' for none.
fn put_unit(rt: &impl Print, s: &[u8], unit: Unit, buffer: &mut [u8], used: usize) -> usize {
    let end = put_text(rt, buffer, used, b"  unit ");
    if unit.key == NO_UNIT {
        return put_text(rt, buffer, end, b"-\n");
    }
    let end = put_hex(rt, buffer, end, unit.key as u64, 8);
    let name = unit.name;
    let end = put_name(rt, buffer, end, part(s, name.place, name.length));
    put_text(rt, buffer, end, b"\n")
}

// Its head and its unit.
fn put_title(
    rt: &impl Print,
    s: &[u8],
    row: Row,
    structure: Structure,
    unit: Unit,
    buffer: &mut [u8],
    used: usize,
) -> usize {
    let name = part(
        s,
        structure.name_place as usize,
        structure.name_length as usize,
    );
    let end = put_head(rt, buffer, used, row.key, row.kind, name);
    put_unit(rt, s, unit, buffer, end)
}

// Its layout, or why it has none.
fn put_structure(
    rt: &impl Print,
    t: &Table<'_, '_>,
    key: u32,
    structure: Structure,
    members: &[u64],
    room: &mut [u32],
    buffer: &mut [u8],
    used: usize,
) -> usize {
    if structure.number == 0 {
        let around = look_around(t, key, room);
        return put_layout(rt, t.section, structure, around, members, buffer, used);
    }
    let end = put_text(rt, buffer, used, b"  ");
    put_refusal(rt, buffer, end, structure.number as u64, structure.place)
}

// How many bytes of the buffer are used, and the unit that was told last.
#[derive(Clone, Copy)]
struct Told {
    used: usize,
    unit: Unit,
}

// A structure, in its unit.
fn tell_structure(
    rt: &impl Print,
    t: &Table<'_, '_>,
    structure: Structure,
    members: &[u64],
    room: &mut [u32],
    buffer: &mut [u8],
    told: Told,
) -> Told {
    let row = row_at(t.rows, structure.row as usize);
    let unit = unit_named(t, row.unit, told.unit);
    let end = put_title(rt, t.section, row, structure, unit, buffer, told.used);
    let used = put_structure(rt, t, row.key, structure, members, room, buffer, end);
    Told { used, unit }
}

// One buffer for all of them, which is written out where it is full and at the end.
fn report_structures(
    rt: &impl Print,
    t: &Table<'_, '_>,
    structures: &[u64],
    members: &[u64],
    n: u32,
) {
    let mut buffer = [0u8; 4096];
    let mut room = child_room();
    let mut told = Told {
        used: 0,
        unit: unnamed(NO_UNIT),
    };
    for k in 0..n {
        let structure = structure_at(structures, k);
        told = tell_structure(rt, t, structure, members, &mut room, &mut buffer, told);
    }
    flush(rt, &buffer, told.used);
}

// A table that was read.
fn report_layouts(rt: &impl Print, t: &Table<'_, '_>) {
    let mut structures = structure_room();
    let mut members = member_room();
    match all_layouts(t, &mut structures, &mut members) {
        Ok(found) => {
            // There are no more structures than rows.
            let n = (found.structures % 4294967296) as u32;
            report_structures(rt, t, &structures, &members, n)
        }
        Err(Unfilled::Refused(why)) => report_refusal(rt, why),
        Err(Unfilled::Room(found)) => report_room(
            rt,
            b"structures",
            found.structures as u64,
            (structures.len() / STRUCTURE_WIDTH) as u64,
            b"members",
            found.members as u64,
            (members.len() / LAID_WIDTH) as u64,
        ),
    }
}

// The first n of a list.
fn part_of(vendors: &[u16], n: usize) -> &[u16] {
    if n <= vendors.len() {
        &vendors[..n]
    } else {
        vendors
    }
}

// A section that is not too long.
pub fn report(rt: &impl Print, s: &[u8], preset: Preset) {
    let mut rows = row_room();
    let mut attrs = attribute_room();
    let numbers = mw_vendors();
    let vendors = part_of(&numbers, preset.vendors);
    let sizes = rust_sizes(0);
    let settings = preset.settings;
    match read_debug_section(s, settings, vendors, &sizes, &mut rows, &mut attrs) {
        Ok(counts) => {
            let t = Table {
                section: s,
                settings,
                vendors,
                sizes: &sizes,
                rows: &rows,
                attrs: &attrs,
                counts,
            };
            report_layouts(rt, &t)
        }
        Err(SectionError::Refused(why)) => report_refusal(rt, why),
        Err(SectionError::Unread { why, byte }) => report_unread(rt, why, byte),
        Err(SectionError::Room(found)) => report_room(
            rt,
            b"entries",
            found.rows as u64,
            ENTRY_LIMIT as u64,
            b"attributes",
            found.attrs as u64,
            ATTRIBUTE_LIMIT as u64,
        ),
    }
}
