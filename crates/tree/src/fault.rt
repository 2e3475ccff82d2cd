// The first row at fault: from the last row to the first, with no memory for each row.
ghost use Rattle.tables.specs.Table.{table_of, table_rows};
ghost use Rattle.std.specs.Prelude.{◌≡◌, suc};
ghost use Rattle.tables.specs.Inside.Find.{Rising};
ghost use Rattle.links.specs.Inside.Links.{AtRow};
ghost use Rattle.tree.specs.Reach.{reach_end};
ghost use Rattle.tree.specs.Inside.Fault.{ReachInside};
ghost use Rattle.tree.specs.Inside.Passing.{chain, fault_of_row, fault_from};

use crate::reach::end_of;
use tables::table::Table;

// Along the rows inside row i's reach, which ends at `end`, from one to where its own reach ends: the first that goes past `end`, if it stands before b;
// else b.
fn first_further(t: &Table<'_, '_>, i: usize, end: usize, b: usize) -> usize
    requires { ReachInside t.now.rows.now t.now.counts.rows i end }
    ensures { result ≡ chain t.now.counts.rows (λ c. reach_end (table_rows (table_of t.now)) c) end b t.now.counts.rows (suc i) }
{
    let mut c = i + 1;
    while c < end {
        if b <= c {
            return b;
        }
        let next = end_of(t, c);
        // Not before the first row at fault; tested so that every turn goes on to a later row.
        if next <= c {
            return c;
        }
        if end < next {
            return c;
        }
        c = next;
    }
    b
}

// The first row at fault from row i on, where b is the first after it.
#[tactic(auto, unfolding(crate::specs::Inside::Passing::fault_of_row))]
fn fault_at(t: &Table<'_, '_>, i: usize, b: usize) -> usize
    requires { AtRow t.now.rows.now t.now.counts.rows i }
    ensures { result ≡ fault_of_row t.now.counts.rows (λ c. reach_end (table_rows (table_of t.now)) c) i b }
{
    let end = end_of(t, i);
    if end == 0 {
        i
    } else {
        first_further(t, i, end, b)
    }
}

// The first row at fault, or the count of rows.
pub(crate) fn first_fault(t: &Table<'_, '_>) -> usize
    requires { Rising t.now.rows.now t.now.counts.rows }
    ensures { result ≡ fault_from t.now.counts.rows (λ c. reach_end (table_rows (table_of t.now)) c) 0 t.now.counts.rows }
{
    let mut b = t.counts.rows;
    for i in (0..t.counts.rows).rev() {
        b = fault_at(t, i, b);
    }
    b
}
