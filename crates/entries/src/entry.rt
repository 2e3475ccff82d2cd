// One entry: its row and its attributes are stored; an erased root's inside is left to the walk, and units until all rows are read.
ghost use Rattle.entries.specs.Inside.Handed.{source_of};
ghost use Rattle.std.specs.Prelude.{◌≡◌, ◌+◌, ◌≤◌, length, Ok};
ghost use Rattle.entries.specs.Entry.{flip, little_flag, flag_of, flags_of, attributes, root_endian, entry_from, read_entry};
ghost use Rattle.entries.specs.Inside.Promise.{Ready, farthest, NullReady, NullRead, kind_of, BodyReady, BodyRead, said_read, unread_at, EntryRead};

use crate::head::{Head, head_at};
use crate::run::read_run;
use crate::source::Source;
use attributes::value::Unread;
use format::attribute_kind::is_known;
use format::refusal::Reason;
use format::tag_kind::{LOCAL_VARIABLE, PADDING, SUBROUTINE};
use numbers::Endian;
use numbers::number::number_at;
use tables::row::Row;
use tables::store::put_row;
use tables::unit::NO_UNIT;

// Where reading stands: the place, and how many rows and attributes were read.
#[derive(Clone, Copy)]
pub struct State {
    pub at: usize,
    pub rows: usize,
    pub attrs: usize,
}

// How the entries around are read: as erased or not, in which data endianness.
#[derive(Clone, Copy)]
pub struct Mode {
    pub erased: bool,
    pub endian: Endian,
}

#[derive(Clone, Copy)]
pub enum Entry {
    Next(State),
    // A root was read: its inside follows, in this endianness, up to this end.
    Inside(State, Endian, usize),
}

// Why entries were not read, with the innermost entry's key: a root where no further level is allowed, refusal 7; or 4 to 6, and the first byte of the
// field that could not be read or was not known.
#[derive(Clone, Copy)]
pub enum EntryError {
    Nested(usize),
    Unread {
        why: Reason,
        key: usize,
        byte: usize,
    },
}

// What the attribute that could not be read says of its entry.
#[tactic(auto, unfolding(crate::specs::Inside::Promise::unread_at))]
fn unread_at(key: usize, why: Unread) -> EntryError
    ensures { result ≡ unread_at key why }
{
    match why {
        Unread::Short(byte) => EntryError::Unread {
            why: Reason::Short,
            key,
            byte,
        },
        Unread::Unknown(byte) => EntryError::Unread {
            why: Reason::Attribute,
            key,
            byte,
        },
    }
}

#[tactic(auto, unfolding(crate::specs::Entry::flip))]
fn flipped(e: Endian) -> Endian
    ensures { result ≡ flip e }
{
    match e {
        Endian::Big => Endian::Little,
        Endian::Little => Endian::Big,
    }
}

#[tactic(auto, unfolding(crate::specs::Entry::little_flag))]
fn little_flag(e: Endian) -> u32
    ensures { result ≡ little_flag e }
{
    match e {
        Endian::Big => 0,
        Endian::Little => 4,
    }
}

#[tactic(auto, unfolding(crate::specs::Entry::flag_of))]
fn flag(on: bool, value: u32) -> u32
    ensures { result ≡ flag_of on value }
{
    if on { value } else { 0 }
}

#[tactic(auto, unfolding(crate::specs::Entry::flags_of, crate::specs::Entry::flag_of, crate::specs::Entry::little_flag))]
fn flags_of(erased: bool, root: bool, e: Endian) -> u32
    ensures { result ≡ flags_of erased root e }
{
    flag(erased, 1) + flag(root, 2) + little_flag(e)
}

// An entry's own kind; of a root a subroutine if a HighPc was read, else a local variable.
#[tactic(auto, unfolding(crate::specs::Entry::root_kind, crate::specs::Inside::Promise::kind_of))]
fn kind_of(root: bool, kind: u16, high: bool) -> u16
    ensures { result ≡ kind_of root kind high }
{
    if root {
        if high { SUBROUTINE } else { LOCAL_VARIABLE }
    } else {
        kind
    }
}

// What is known of an entry before its attributes are read.
#[derive(Clone, Copy)]
pub struct Shape {
    pub erased: bool,
    pub root: bool,
    pub endian: Endian,
    pub kind: u16,
    pub end: usize,
}

// The attributes of the entry at a state's place are read and stored, then its row.
fn read_body(
    r: &Source<'_>,
    rows: &mut [u32],
    attrs: &mut [u32],
    shape: Shape,
    from: State,
) -> Result<State, EntryError>
    requires { BodyReady r.now.section.now from }
    ensures { BodyRead r.now.section.now from shape (attributes (source_of r.now) shape.endian shape.root
        shape.end from.at) result rows.old rows.new attrs.old attrs.new }
{
    let e = shape.endian;
    let run = read_run(r, attrs, e, shape.root, shape.end, from.at + 6, from.attrs).map_err(
        |why| unread_at(from.at, why),
    )?;
    let row = Row {
        key: from.at as u32,
        kind: kind_of(shape.root, shape.kind, run.high) as u32,
        flags: flags_of(shape.erased, shape.root, e),
        first: from.attrs as u32,
        count: (run.attrs - from.attrs) as u32,
        unit: NO_UNIT,
    };
    put_row(rows, from.rows, row);
    Ok(State {
        at: run.at,
        rows: from.rows + 1,
        attrs: run.attrs,
    })
}

// The data endianness of a root; short where the two bytes to look at are not there.
#[tactic(auto, unfolding(numbers::specs::Value::read_at, crate::specs::Entry::root_endian, crate::specs::Inside::Promise::said_read))]
fn root_endian(r: &Source<'_>, mode: Mode, at: usize) -> Result<Endian, EntryError>
    requires { at + 6 ≤ length r.now.section.now }
    ensures { said_read result ≡ root_endian r.now.vendors.now r.now.section.now mode.erased mode.endian at }
{
    let e = mode.endian;
    if mode.erased {
        return Ok(e);
    }
    let place = at + 6;
    let n = number_at::<u16>(r.section, place, e).ok_or(EntryError::Unread {
        why: Reason::Short,
        key: at,
        byte: place,
    })?;
    if is_known(n, r.vendors) {
        Ok(e)
    } else {
        Ok(flipped(e))
    }
}

// An erased root: one more level is wanted, its data endianness is looked for, its own attributes are read; its inside follows.
fn read_root(
    r: &Source<'_>,
    rows: &mut [u32],
    attrs: &mut [u32],
    levels: usize,
    mode: Mode,
    end: usize,
    from: State,
) -> Result<Entry, EntryError>
    requires { BodyReady r.now.section.now from × (end ≤ farthest) }
    ensures { EntryRead r.now.section.now from (entry_from (source_of r.now) levels mode from.at
        from.attrs (Ok (Head.Root end))) result rows.old rows.new attrs.old attrs.new }
{
    if levels == 0 {
        return Err(EntryError::Nested(from.at));
    }
    let e = root_endian(r, mode, from.at)?;
    let shape = Shape {
        erased: true,
        root: true,
        endian: e,
        kind: PADDING,
        end,
    };
    let state = read_body(r, rows, attrs, shape, from)?;
    Ok(Entry::Inside(state, e, end))
}

// A null entry: a row of kind Padding, with no attributes.
fn read_null(rows: &mut [u32], mode: Mode, place: usize, from: State) -> Entry
    requires { NullReady from place }
    ensures { NullRead from mode.erased mode.endian place result rows.old rows.new }
{
    let e = mode.endian;
    let row = Row {
        key: from.at as u32,
        kind: PADDING as u32,
        flags: flags_of(mode.erased, false, e),
        first: from.attrs as u32,
        count: 0,
        unit: NO_UNIT,
    };
    put_row(rows, from.rows, row);
    Entry::Next(State {
        at: place,
        rows: from.rows + 1,
        attrs: from.attrs,
    })
}

// An ordinary entry.
fn read_ordinary(
    r: &Source<'_>,
    rows: &mut [u32],
    attrs: &mut [u32],
    mode: Mode,
    kind: u16,
    end: usize,
    from: State,
) -> Result<Entry, EntryError>
    requires { BodyReady r.now.section.now from }
    ensures { EntryRead r.now.section.now from (entry_from (source_of r.now) 0 mode from.at
        from.attrs (Ok (Head.Ordinary kind end))) result rows.old rows.new attrs.old attrs.new }
{
    let e = mode.endian;
    let shape = Shape {
        erased: mode.erased,
        root: false,
        endian: e,
        kind,
        end,
    };
    let state = read_body(r, rows, attrs, shape, from)?;
    Ok(Entry::Next(state))
}

// The entry at a state's place.
pub(crate) fn read_entry(
    r: &Source<'_>,
    rows: &mut [u32],
    attrs: &mut [u32],
    levels: usize,
    mode: Mode,
    from: State,
) -> Result<Entry, EntryError>
    requires { Ready r.now.section.now from }
    ensures { EntryRead r.now.section.now from (read_entry (source_of r.now) r.now.erased levels mode
        from.at from.attrs) result rows.old rows.new attrs.old attrs.new }
{
    let head = head_at(r.erased, r.section, mode.endian, from.at).map_err(
        |field| EntryError::Unread {
            why: field.why,
            key: from.at,
            byte: field.byte,
        },
    )?;
    match head {
        Head::Null(place) => Ok(read_null(rows, mode, place, from)),
        Head::Skipped(place) => Ok(Entry::Next(State {
            at: place,
            rows: from.rows,
            attrs: from.attrs,
        })),
        Head::Root(end) => read_root(r, rows, attrs, levels, mode, end, from),
        Head::Ordinary { kind, end } => read_ordinary(r, rows, attrs, mode, kind, end, from),
    }
}
