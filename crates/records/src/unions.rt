// Unions: the Rust's `process_union_tag`. Their members' records go into lent room, in words.
ghost use Rattle.std.specs.Prelude.{◌≡◌};
ghost use Rattle.lent.specs.Outcome.{Given};
ghost use Rattle.format.specs.Said.{said, said_counted};
ghost use Rattle.tables.specs.Row.{row_at};
ghost use Rattle.tables.specs.Table.{table_of, table_rows};
ghost use Rattle.links.specs.Inside.Children.{Asked};
ghost use Rattle.links.specs.Inside.EachChild.{children_at};
ghost use Rattle.records.specs.Unions.{ignored, union_sized, members_from, row_members, union_at, union_into, process_union_tag};
ghost use Rattle.records.specs.Inside.Unions.{TakeAsked, TakesMember, EndsAt, MembersStored, UnionStored};

use crate::fields::{Text, last_name, needed_word};
use crate::front::head_fault;
use crate::member::member_at;
use crate::member_words::{MEMBER_WIDTH, put_member};
use crate::scan::{Run, refused, run_of};
use crate::taken::Record;
use format::attribute_kind::{BYTE_SIZE, NAME};
use format::refusal::{Reason, Refusal, Unfilled};
use links::any_child::any_child;
use links::each_child::child_from;
use links::link::{next_row, sibling_row};
use tables::keyed::row_of;
use tables::row::row_at;
use tables::table::Table;

#[derive(Clone, Copy)]
pub struct Union {
    pub name: Option<Text>,
    pub byte_size: u32,
    pub members: usize,
}

// Children that only define types.
#[tactic(auto, unfolding(crate::specs::Unions::ignored, crate::specs::Unions::ignored_kinds, format::specs::Lookup::is_on))]
fn is_ignored(kind: u32) -> bool
    ensures { result ≡ ignored kind }
{
    matches!(kind, 0x01 | 0x02 | 0x04 | 0x13 | 0x15 | 0x16 | 0x17 | 0x1f)
}

// A child at row c: a member's record goes into the room as number k; a type's definition is passed over; any other is 16 at the union.
fn take_child(
    t: &Table<'_, '_>,
    key: u32,
    c: usize,
    room: &mut [u64],
    k: usize,
) -> Result<usize, Refusal>
    requires { TakeAsked t.now.rows.now t.now.counts.rows c k }
    ensures { TakesMember t.now.settings t.now.section.now t.now.rows.now t.now.attrs.now t.now.counts.rows key c k (said result)
        room.old room.new }
{
    let row = row_at(t.rows, c);
    if row.kind == 0x0d {
        put_member(room, k, c, member_at(t, c)?);
        Ok(k + 1)
    } else if is_ignored(row.kind) {
        Ok(k)
    } else {
        Err(refused(Reason::Child, key))
    }
}

// The children of row i, whose walk ends, one at a time.
fn take_children(t: &Table<'_, '_>, i: usize, room: &mut [u64]) -> Result<usize, Refusal>
    requires { EndsAt t.now.settings.endian t.now.section.now t.now.rows.now t.now.attrs.now t.now.counts.rows i }
    ensures { MembersStored (members_from t.now.settings (table_rows (table_of t.now)) (row_at t.now.rows.now i).key
        (children_at t.now.settings.endian t.now.section.now t.now.rows.now t.now.attrs.now t.now.counts.rows i))
        (said result) room.old room.new }
{
    let row = row_at(t.rows, i);
    let end = sibling_row(t, i);
    let mut c = child_from(t, end, next_row(t.rows, t.counts.rows, i));
    let mut k: usize = 0;
    while c < t.counts.rows {
        k = take_child(t, row.key, c, room, k)?;
        c = child_from(t, end, sibling_row(t, c));
    }
    Ok(k)
}

// All children: 9 where the walk never ends.
fn union_members(t: &Table<'_, '_>, i: usize, room: &mut [u64]) -> Result<usize, Refusal>
    requires { Asked t.now.rows.now t.now.counts.rows i }
    ensures { MembersStored (row_members t.now.settings (table_rows (table_of t.now)) i) (said result) room.old room.new }
{
    let row = row_at(t.rows, i);
    any_child(t, i).ok_or(refused(Reason::Link, row.key))?;
    take_children(t, i, room)
}

#[tactic(auto, using(crate::proofs::Laws::Steps::steps), unfolding(crate::specs::Unions::union_sized))]
fn union_sized(s: &[u8], attrs: &[u32], run: Run, members: usize) -> Result<Union, Refusal>
    ensures { said result ≡ union_sized s.now attrs.now run members }
{
    let byte_size = needed_word(s, attrs, run, BYTE_SIZE)?;
    Ok(Union {
        name: last_name(s, attrs, run, NAME),
        byte_size,
        members,
    })
}

// The union at row i, its members into the room as far as they fit.
fn read_union(t: &Table<'_, '_>, i: usize, room: &mut [u64]) -> Result<Union, Refusal>
    requires { Asked t.now.rows.now t.now.counts.rows i }
    ensures { UnionStored (union_at t.now.settings (table_rows (table_of t.now)) i)
        (row_members t.now.settings (table_rows (table_of t.now)) i) (said result) room.old room.new }
{
    head_fault(t, i, Record::Union)?;
    let members = union_members(t, i, room)?;
    let run = run_of(t.settings.endian, t.rows, i);
    union_sized(t.section, t.attrs, run, members)
}

// The union at row i of a tested table, with no room: all of it is read.
pub fn union_at(t: &Table<'_, '_>, i: usize) -> Result<Union, Refusal>
    requires { Asked t.now.rows.now t.now.counts.rows i }
    ensures { said result ≡ union_at t.now.settings (table_rows (table_of t.now)) i }
{
    let mut room = [0u64; 0];
    read_union(t, i, &mut room)
}

// Counted first, so that a refusal has written nothing.
#[tactic(auto, using(crate::proofs::Laws::Steps::steps), unfolding(crate::specs::Unions::union_into))]
fn give_union(t: &Table<'_, '_>, i: usize, room: &mut [u64]) -> Result<Union, Unfilled<usize>>
    requires { Asked t.now.rows.now t.now.counts.rows i }
    ensures { Given (union_into t.now.settings (table_rows (table_of t.now)) room.old i) (said_counted result) room.new }
{
    let found = union_at(t, i)?;
    if found.members > room.len() / MEMBER_WIDTH {
        return Err(Unfilled::Room(found.members));
    }
    let _ = read_union(t, i, room);
    Ok(found)
}

// The union of a key, its members' records into the room, 16 words each; or a refusal, and the room stays as it was.
#[tactic(auto, using(crate::proofs::Laws::Steps::steps), unfolding(crate::specs::Unions::process_union_tag))]
pub fn process_union_tag(
    t: &Table<'_, '_>,
    key: u32,
    room: &mut [u64],
) -> Result<Union, Unfilled<usize>>
    ensures { Given (process_union_tag (table_of t.now) key room.old) (said_counted result) room.new }
{
    let i = row_of(t, key)?;
    give_union(t, i, room)
}
