// What is kept of each row for calls that take many sizes, so that a row is read once. Three answers a row, in the words of noted sizes: a member's offset,
// or why it is refused (of a structure: why its members are); a member's size, or the row of the entry that has it; the sibling's row. Nothing is kept where
// `kept` is empty.
ghost use Rattle.tables.specs.Table.{table_of, table_rows};
ghost use Rattle.format.specs.Said.{said};
ghost use Rattle.std.specs.Prelude.{◌≡◌};
ghost use Rattle.links.specs.Links.{sibling_row};
ghost use Rattle.links.specs.Inside.Children.{Asked};
ghost use Rattle.sizes.specs.Inside.Prepare.{SmallPlace};
ghost use Rattle.sizes.specs.Inside.Size.{said_added, with_size};
ghost use Rattle.sizes.specs.Inside.Kept.{size_kept, added_kept, SiblingsKept};
ghost use Rattle.sizes.specs.Inside.Lent.{over_rows};

use crate::noted::noted_at;
use format::refusal::{Refusal, number_of};
use links::link::sibling_row;
use tables::table::Table;

// What a member adds to its structure.
#[derive(Clone, Copy)]
pub struct Added {
    pub offset: u32,
    pub size: u32,
}

// The answers of a row.
pub const KEPT: usize = 3;

pub(crate) fn with_size(offset: u32, size: Result<u32, Refusal>) -> Result<Added, Refusal>
    ensures { said_added result ≡ with_size offset (said size) }
{
    let size = size?;
    Ok(Added { offset, size })
}

// A size as it is kept: 10 tells the row of the entry that has it.
#[tactic(auto, unfolding(crate::specs::Inside::Kept::size_kept, format::specs::Said::said))]
fn size_kept(noted: &[u64], size: Result<u32, Refusal>) -> Result<u32, Refusal>
    ensures { said result ≡ size_kept noted.now (said size) }
{
    let Err(why) = size else {
        return size;
    };
    if number_of(why.reason) == 10 {
        noted_at(noted, why.place as usize)
    } else {
        size
    }
}

// The member at row c, as it is kept.
pub(crate) fn added_kept(noted: &[u64], kept: &[u64], c: usize) -> Result<Added, Refusal>
    requires { SmallPlace c }
    ensures { said_added result ≡ added_kept noted.now kept.now c }
{
    let offset = noted_at(kept, c * KEPT)?;
    let size = noted_at(kept, c * KEPT + 1);
    with_size(offset, size_kept(noted, size))
}

// The sibling of row c.
pub fn kept_sibling(t: &Table<'_, '_>, kept: &[u64], c: usize) -> usize
    requires { Asked t.now.rows.now t.now.counts.rows c × over_rows SiblingsKept t.now kept.now }
    ensures { result ≡ sibling_row (table_rows (table_of t.now)) c }
{
    if kept.len() == 0 {
        return sibling_row(t, c);
    }
    match noted_at(kept, c * KEPT + 2) {
        Ok(row) => row as usize,
        Err(_) => t.counts.rows,
    }
}
