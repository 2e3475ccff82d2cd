// A row's size in stages: each comes to the size, or waits for the size of a type, with which the next one goes on. So no record stands on the stack while
// a type's size is taken.
ghost use Rattle.tables.specs.Table.{table_of, table_rows};
ghost use Rattle.std.specs.Prelude.{suc, length};
ghost use Rattle.links.specs.Inside.Children.{Asked};
ghost use Rattle.records.specs.Inside.Enumeration.{AskedShort};
ghost use Rattle.sizes.specs.Size.{row_size};
ghost use Rattle.sizes.specs.Inside.Size.{array_product, ends_over};
ghost use Rattle.sizes.specs.Inside.Stage.{PartSays, FromAsked, Awaits, MemberStaged, Staged, children_on, children_after, stage_size, stage_turns};
ghost use Rattle.sizes.specs.declared.stage.Stage.TheVariants.{Member};
ghost use Rattle.sizes.specs.Inside.Lent.{over};

use crate::prepare::{Prepared, prepare_row};
use crate::size::{array_product, grown};
use blocks::types::Type;
use format::refusal::Refusal;
use links::each_child::child_from;
use links::link::{next_row, sibling_row};
use records::member::member_at;
use tables::row::row_at;
use tables::table::Table;

// The largest end with that of a child: it is known, or the size of the member's type is wanted.
#[derive(Clone, Copy)]
pub enum Part {
    Ends(u32),
    Typed { offset: u32, of: Type },
}

// Where a row's size goes on: at the beginning; an array at its attribute; a structure at a member's row, with the largest end before it. The row has 32 bits
// here, which keeps a stage at 16 bytes.
#[derive(Clone, Copy)]
pub enum Stage {
    Begin,
    Element(usize),
    Member { at: u32, offset: u32, largest: u32 },
}

// What a stage comes to: the size; a type whose size is waited for, and the stage after it.
#[derive(Clone, Copy)]
pub enum Wait {
    Nothing(u32),
    Type { of: Type, stage: Stage },
}

// Child c: a member has a size of its own or its type's, any other child is passed over.
fn child_part(t: &Table<'_, '_>, c: usize, largest: u32) -> Result<Part, Refusal>
    requires { Asked t.now.rows.now t.now.counts.rows c }
    ensures { over PartSays t.now c largest result }
{
    let row = row_at(t.rows, c);
    if row.kind != 0x0d {
        return Ok(Part::Ends(largest));
    }
    let member = member_at(t, c)?;
    match member.byte_size {
        Some(size) => {
            let next = grown(t.rows, c, largest, member.offset, size)?;
            Ok(Part::Ends(next))
        }
        None => Ok(Part::Typed {
            offset: member.offset,
            of: member.of,
        }),
    }
}

// The children of row i from a row on, up to the first whose type's size is wanted; `most` is the largest end before them.
fn members_from(t: &Table<'_, '_>, i: usize, from: usize, most: u32) -> Result<Wait, Refusal>
    requires { over FromAsked t.now i from }
    ensures { over Awaits t.now i
        (λ size_of. over ends_over t.now size_of most (over children_on t.now i from)) (length (over children_on t.now i from)) result }
{
    let end = sibling_row(t, i);
    let mut c = child_from(t, end, from);
    let mut largest = most;
    while c < t.counts.rows {
        match child_part(t, c, largest)? {
            Part::Ends(next) => {
                largest = next;
                c = child_from(t, end, sibling_row(t, c));
            }
            Part::Typed { offset, of } => {
                return Ok(Wait::Type {
                    of,
                    stage: Stage::Member {
                        at: c as u32,
                        offset,
                        largest,
                    },
                });
            }
        }
    }
    Ok(Wait::Nothing(largest))
}

// The first stage: all of the row is read before any size is taken.
fn begun(t: &Table<'_, '_>, i: usize) -> Result<Wait, Refusal>
    requires { AskedShort t.now.section.now t.now.rows.now t.now.counts.rows i }
    ensures { over Awaits t.now i
        (λ size_of. row_size t.now.settings (table_rows (table_of t.now)) size_of i) (suc t.now.counts.rows) result }
{
    let none = [0u64; 0];
    match prepare_row(t, &none, i)? {
        Prepared::Size(size) => Ok(Wait::Nothing(size)),
        Prepared::Element { of, at } => Ok(Wait::Type {
            of,
            stage: Stage::Element(at),
        }),
        Prepared::Ends => members_from(t, i, next_row(t.rows, t.counts.rows, i), 0),
    }
}

// The element's size times the dimensions.
fn multiplied(t: &Table<'_, '_>, i: usize, at: usize, size: u32) -> Result<Wait, Refusal>
    ensures { over Awaits t.now i
        (λ size_of. array_product t.now.settings t.now.section.now t.now.rows.now t.now.attrs.now i at size) 0 result }
{
    let product = array_product(t, i, at, size)?;
    Ok(Wait::Nothing(product))
}

// The member's end, then the children behind it.
fn grown_on(
    t: &Table<'_, '_>,
    i: usize,
    c: usize,
    offset: u32,
    largest: u32,
    size: u32,
) -> Result<Wait, Refusal>
    requires { over MemberStaged t.now i c }
    ensures { over Awaits t.now i
        (λ size_of. over stage_size t.now i size_of (Member c offset largest) size) (length (over children_after t.now i c)) result }
{
    let next = grown(t.rows, c, largest, offset, size)?;
    members_from(t, i, sibling_row(t, c), next)
}

// The next stage of row i, with the size that was waited for.
pub(crate) fn next_stage(
    t: &Table<'_, '_>,
    i: usize,
    stage: Stage,
    size: u32,
) -> Result<Wait, Refusal>
    requires { over Staged t.now i stage }
    ensures { over Awaits t.now i (λ size_of. over stage_size t.now i size_of stage size) (over stage_turns t.now i stage) result }
{
    match stage {
        Stage::Begin => begun(t, i),
        Stage::Element(at) => multiplied(t, i, at, size),
        Stage::Member {
            at,
            offset,
            largest,
        } => grown_on(t, i, at as usize, offset, largest, size),
    }
}
