// The layout of a structure or class: its size, and for each member in walk order its offset, size and name, into lent room.
ghost use Rattle.tables.specs.Table.{table_of, table_rows};
ghost use Rattle.format.specs.Said.{said, said_counted};
ghost use Rattle.std.specs.Prelude.{◌≡◌, ◌+◌, ◌*◌, ◌^◌, ◌<◌, [], ◌∷◌};
ghost use Rattle.std.proofs.lemmas.List.Edits.{sets};
ghost use Rattle.lent.specs.Outcome.{Given};
ghost use Rattle.records.specs.Inside.Enumeration.{AskedShort};
ghost use Rattle.tables.specs.Row.{row_at};
ghost use Rattle.links.specs.Inside.EachChild.{children_at};
ghost use Rattle.sizes.specs.Inside.Kept.{AllKept, LayoutAsked};
ghost use Rattle.sizes.specs.Inside.Lent.{over, over_sizes, over_rows};
ghost use Rattle.sizes.specs.Inside.Size.{EndsShort, type_size_from};
ghost use Rattle.layout.specs.Layout.{laid_width, laid_words, has_byte_size, size_or_largest, end_or};
ghost use Rattle.layout.specs.Layout.{row_lay, layout_at, layout_into, layout_of_key};
ghost use Rattle.layout.specs.Inside.Layout.{laid_at, sized_laid, child_laid, children_laid, structure_laid, LayAsked, Lays, WholeLaid};

use format::attribute_kind::{BYTE_SIZE, NAME};
use format::limits::DEPTH_LIMIT;
use format::refusal::{Reason, Refusal, Unfilled};
use lent::cells::put;
use links::each_child::child_from;
use links::link::next_row;
use records::fields::{last_name, last_word};
use records::member_words::{name_length, name_place};
use records::scan::{refused, run_of};
use sizes::kept::{Added, kept_sibling};
use sizes::many::member_added;
use sizes::prepare::{is_structure, kept_fault};
use sizes::size::grown;
use tables::keyed::row_of;
use tables::row::row_at;
use tables::table::Table;

#[derive(Clone, Copy)]
pub struct Layout {
    pub row: usize,
    pub size: u32,
    pub members: usize,
}

// How many members are laid, and their largest end.
#[derive(Clone, Copy)]
pub struct Laying {
    pub count: usize,
    pub largest: u32,
}

// The words of a member: offset, size, place and length of its name.
pub const LAID_WIDTH: usize = 4;

// Is there a ByteSize?
#[tactic(auto, unfolding(crate::specs::Layout::has_byte_size))]
fn is_bounded(size: Option<u32>) -> bool
    ensures { result ≡ has_byte_size size }
{
    size.is_some()
}

#[tactic(auto, unfolding(crate::specs::Layout::size_or_largest))]
fn size_or_largest(size: Option<u32>, largest: u32) -> u32
    ensures { result ≡ size_or_largest largest size }
{
    size.unwrap_or(largest)
}

// The largest end; with a ByteSize no end is taken for a size.
#[tactic(auto, unfolding(crate::specs::Layout::end_or, sizes::specs::Inside::Size::grown, format::specs::Said::said))]
fn end_or(rows: &[u32], bounded: bool, c: usize, largest: u32, added: Added) -> Result<u32, Refusal>
    ensures { said result ≡ end_or bounded (row_at rows.now c).key largest (added.offset + added.size) }
{
    if bounded {
        Ok(largest)
    } else {
        grown(rows, c, largest, added.offset, added.size)
    }
}

// The member at row c into the room as number k, if it fits.
#[tactic(auto, unfolding(crate::specs::Layout::laid_words, crate::specs::Inside::Layout::laid_at))]
fn put_laid(t: &Table<'_, '_>, room: &mut [u64], k: usize, c: usize, added: Added)
    ensures { room.new ≡ sets room.old (k * laid_width)
        (laid_words (laid_at t.now.settings.endian t.now.section.now t.now.rows.now t.now.attrs.now c added.offset added.size ∷ [])) }
{
    if k < room.len() {
        let name = last_name(
            t.section,
            t.attrs,
            run_of(t.settings.endian, t.rows, c),
            NAME,
        );
        let at = k * LAID_WIDTH;
        put(room, at, added.offset as u64);
        put(room, at + 1, added.size as u64);
        put(room, at + 2, name_place(name));
        put(room, at + 3, name_length(name));
    }
}

// The member at row c, whose size is noted, laid after the others.
fn lay_sized(
    t: &Table<'_, '_>,
    bounded: bool,
    c: usize,
    added: Added,
    laid: Laying,
    room: &mut [u64],
) -> Result<Laying, Refusal>
    requires { laid.count + 1 < 2 ^ 64 }
    ensures { Lays
        (sized_laid t.now.settings.endian t.now.section.now t.now.rows.now t.now.attrs.now bounded laid.largest c added.offset added.size)
        laid.count result room.old room.new }
{
    let largest = end_or(t.rows, bounded, c, laid.largest, added)?;
    put_laid(t, room, laid.count, c, added);
    Ok(Laying {
        count: laid.count + 1,
        largest,
    })
}

// Child c: a member is laid after the others, any other child is passed over.
fn lay_child(
    t: &Table<'_, '_>,
    noted: &[u64],
    kept: &[u64],
    levels: usize,
    bounded: bool,
    c: usize,
    laid: Laying,
    room: &mut [u64],
) -> Result<Laying, Refusal>
    requires { LayAsked t.now.section.now t.now.rows.now t.now.counts.rows c laid.count × over_sizes AllKept t.now noted.now kept.now }
    ensures { Lays (over child_laid t.now (over_sizes type_size_from t.now noted.now levels) bounded laid.largest c) laid.count result room.old room.new }
{
    let row = row_at(t.rows, c);
    if row.kind != 0x0d {
        return Ok(laid);
    }
    let added = member_added(t, noted, kept, levels, c)?;
    lay_sized(t, bounded, c, added, laid, room)
}

// The children of row i, whose walk ends, one at a time.
fn lay_children(
    t: &Table<'_, '_>,
    noted: &[u64],
    kept: &[u64],
    levels: usize,
    bounded: bool,
    i: usize,
    room: &mut [u64],
) -> Result<Laying, Refusal>
    requires { over EndsShort t.now i × over_sizes AllKept t.now noted.now kept.now }
    ensures { Lays (over children_laid t.now (over_sizes type_size_from t.now noted.now levels) bounded 0 (over_rows children_at t.now i)) 0 result
        room.old room.new }
{
    let end = kept_sibling(t, kept, i);
    let mut c = child_from(t, end, next_row(t.rows, t.counts.rows, i));
    let mut laid = Laying {
        count: 0,
        largest: 0,
    };
    while c < t.counts.rows {
        laid = lay_child(t, noted, kept, levels, bounded, c, laid, room)?;
        c = child_from(t, end, kept_sibling(t, kept, c));
    }
    Ok(laid)
}

// The members of a structure: all are read whole before any size is taken.
fn lay_structure(
    t: &Table<'_, '_>,
    noted: &[u64],
    kept: &[u64],
    levels: usize,
    bounded: bool,
    i: usize,
    room: &mut [u64],
) -> Result<Laying, Refusal>
    requires { over_sizes LayoutAsked t.now noted.now kept.now i }
    ensures { Lays (over structure_laid t.now (over_sizes type_size_from t.now noted.now levels) bounded i) 0 result room.old room.new }
{
    kept_fault(t, kept, i)?;
    lay_children(t, noted, kept, levels, bounded, i, room)
}

// Row i: only a structure or a class has a layout.
pub(crate) fn read_layout(
    t: &Table<'_, '_>,
    noted: &[u64],
    kept: &[u64],
    levels: usize,
    i: usize,
    room: &mut [u64],
) -> Result<Layout, Refusal>
    requires { AskedShort t.now.section.now t.now.rows.now t.now.counts.rows i × over_sizes AllKept t.now noted.now kept.now }
    ensures { WholeLaid (layout_at t.now.settings (table_rows (table_of t.now)) (over_sizes type_size_from t.now noted.now levels) i)
        (row_lay t.now.settings (table_rows (table_of t.now)) (over_sizes type_size_from t.now noted.now levels) i) result room.old room.new }
{
    let row = row_at(t.rows, i);
    if !is_structure(row.kind) {
        return Err(refused(Reason::Kind, row.key));
    }
    let own = last_word(
        t.section,
        t.attrs,
        run_of(t.settings.endian, t.rows, i),
        BYTE_SIZE,
    );
    let laid = lay_structure(t, noted, kept, levels, is_bounded(own), i, room)?;
    Ok(Layout {
        row: i,
        size: size_or_largest(own, laid.largest),
        members: laid.count,
    })
}

// Counted first, so that a refusal has written nothing.
fn give_layout(
    t: &Table<'_, '_>,
    noted: &[u64],
    kept: &[u64],
    levels: usize,
    i: usize,
    room: &mut [u64],
) -> Result<Layout, Unfilled<usize>>
    requires { AskedShort t.now.section.now t.now.rows.now t.now.counts.rows i × over_sizes AllKept t.now noted.now kept.now }
    ensures { Given (layout_into t.now.settings (table_rows (table_of t.now)) (over_sizes type_size_from t.now noted.now levels) room.old i)
        (said_counted result) room.new }
{
    let mut none = [0u64; 0];
    let found = read_layout(t, noted, kept, levels, i, &mut none)?;
    if found.members <= room.len() / LAID_WIDTH {
        let _ = read_layout(t, noted, kept, levels, i, room);
        Ok(found)
    } else {
        Err(Unfilled::Room(found.members))
    }
}

// The layout of a key's entry, which is depth 1, its members into the room, four words each; or a refusal, and the room stays as it was.
pub fn layout_of_key(
    t: &Table<'_, '_>,
    key: u32,
    room: &mut [u64],
) -> Result<Layout, Unfilled<usize>>
    ensures { Given (layout_of_key (table_of t.now) key room.old) (said_counted result) room.new }
{
    let i = row_of(t, key)?;
    let noted = [0u64; 0];
    give_layout(t, &noted, &noted, DEPTH_LIMIT - 1, i, room)
}
