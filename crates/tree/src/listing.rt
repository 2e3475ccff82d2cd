// The tree listing, into lent room: two words for each row, its depth and its parent (a row number plus one, 0 for none).
ghost use Rattle.tables.specs.Table.{table_of, table_rows};
ghost use Rattle.format.specs.Said.{said, said_counted};
ghost use Rattle.std.specs.Prelude.{◌≡◌};
ghost use Rattle.lent.specs.Outcome.{Given};
ghost use Rattle.links.specs.Inside.Links.{RowsHold};
ghost use Rattle.tree.specs.Reach.{reach_end};
ghost use Rattle.tree.specs.Pick.{first_from};
ghost use Rattle.tree.specs.Inside.Passing.{open_deep};
ghost use Rattle.tree.specs.Tree.{first_erased, none_of, tree_tests, listing_of, list_tree};

use crate::fault::first_fault;
use crate::pass::list_rows;
use format::refusal::{Reason, Refusal, Unfilled};
use tables::row::{is_erased, row_at};
use tables::table::Table;
use tables::tests::test_table;

pub const PLACE_WIDTH: usize = 2;

// The first erased row, or n.
#[tactic(auto, unfolding(crate::specs::Tree::first_erased))]
fn first_erased(rows: &[u32], n: usize) -> usize
    ensures { result ≡ first_erased rows.now n }
{
    for i in 0..n {
        let row = row_at(rows, i);
        if is_erased(row.flags) {
            return i;
        }
    }
    n
}

// The pass over the rows into no room: the first row that lies too deep, or n.
fn first_deep(t: &Table<'_, '_>) -> usize
    requires { RowsHold t.now.rows.now t.now.counts.rows }
    ensures { result ≡ first_from (open_deep (λ i. reach_end (table_rows (table_of t.now)) i)) 0 t.now.counts.rows }
{
    let mut room = [0u32; 0];
    list_rows(t, &mut room)
}

// None of n rows is so: else the first one's key is told.
#[tactic(auto, unfolding(format::specs::Said::said, format::specs::Said::must))]
fn none_of(rows: &[u32], n: usize, first: usize, reason: Reason) -> Result<(), Refusal>
    ensures { said result ≡ none_of rows.now n first reason }
{
    if n <= first {
        return Ok(());
    }
    let row = row_at(rows, first);
    Err(Refusal {
        reason,
        place: row.key as u64,
    })
}

// No row is erased, at fault or too deep.
fn tree_tests(t: &Table<'_, '_>) -> Result<(), Refusal>
    requires { RowsHold t.now.rows.now t.now.counts.rows }
    ensures { said result ≡ tree_tests t.now.rows.now t.now.counts.rows (λ i. reach_end (table_rows (table_of t.now)) i) }
{
    let erased = first_erased(t.rows, t.counts.rows);
    none_of(t.rows, t.counts.rows, erased, Reason::Kind)?;
    let fault = first_fault(t);
    none_of(t.rows, t.counts.rows, fault, Reason::Link)?;
    let deep = first_deep(t);
    none_of(t.rows, t.counts.rows, deep, Reason::Depth)
}

// All tests first, so that a refusal has written nothing.
fn list(t: &Table<'_, '_>, room: &mut [u32]) -> Result<usize, Unfilled<usize>>
    requires { RowsHold t.now.rows.now t.now.counts.rows }
    ensures { Given (listing_of t.now.rows.now t.now.counts.rows (λ i. reach_end (table_rows (table_of t.now)) i) room.old)
        (said_counted result) room.new }
{
    tree_tests(t)?;
    if t.counts.rows * PLACE_WIDTH <= room.len() {
        list_rows(t, room);
        Ok(t.counts.rows)
    } else {
        Err(Unfilled::Room(t.counts.rows))
    }
}

// Depth and parent of every row, in file order; or a refusal, and the room stays as it was.
pub fn list_tree(t: &Table<'_, '_>, room: &mut [u32]) -> Result<usize, Unfilled<usize>>
    ensures { Given (list_tree (table_of t.now) room.old) (said_counted result) room.new }
{
    test_table(t)?;
    list(t, room)
}
