// The next row and the sibling of the row of a key.
ghost use Rattle.tables.specs.Table.{table_of};
ghost use Rattle.format.specs.Said.{said};
ghost use Rattle.std.specs.Prelude.{◌≡◌};
ghost use Rattle.links.specs.Neighbour.{row_or_none, next_tag, next_sibling};

use crate::link::{next_row, sibling_row};
use format::refusal::Refusal;
use tables::keyed::row_of;
use tables::table::Table;

// A row by its number: n is no row.
#[tactic(auto, unfolding(crate::specs::Neighbour::row_or_none))]
fn row_or_none(n: usize, j: usize) -> Option<usize>
    ensures { result ≡ row_or_none n j }
{
    (j < n).then_some(j)
}

// The row after the row of this key.
pub fn next_tag(t: &Table<'_, '_>, key: u32) -> Result<Option<usize>, Refusal>
    ensures { said result ≡ next_tag (table_of t.now) key }
{
    let i = row_of(t, key)?;
    Ok(row_or_none(t.counts.rows, next_row(t.rows, t.counts.rows, i)))
}

// The sibling of the row of this key.
pub fn next_sibling(t: &Table<'_, '_>, key: u32) -> Result<Option<usize>, Refusal>
    ensures { said result ≡ next_sibling (table_of t.now) key }
{
    let i = row_of(t, key)?;
    Ok(row_or_none(t.counts.rows, sibling_row(t, i)))
}
