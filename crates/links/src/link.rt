// From a row to another: the next one, the sibling. A row that is not there is n, the count of rows.
ghost use Rattle.tables.specs.Table.{table_of, table_rows};
ghost use Rattle.std.specs.Prelude.{◌≡◌, ◌-◌, ◌≤◌};
ghost use Rattle.tables.specs.Find.{row_of_key};
ghost use Rattle.links.specs.Links.{next_from, next_row, row_number, sibling_row};
ghost use Rattle.links.specs.Inside.Links.{AtRow};

use crate::lookup::reference_of;
use tables::find::find_row_near;
use tables::row::{is_erased, row_at};
use tables::table::Table;

const SIBLING: u32 = 0x12;

// The first row from i on that is not passed over, or n.
fn next_from(rows: &[u32], n: usize, i: usize, asking: bool) -> usize
    requires { i ≤ n }
    ensures { result ≡ next_from rows.now asking i (n - i) }
{
    for j in i..n {
        if asking {
            return j;
        }
        let row = row_at(rows, j);
        if !is_erased(row.flags) {
            return j;
        }
    }
    n
}

// The row after row i, erased rows passed over unless row i is erased; n where there is none.
#[tactic(auto, unfolding(crate::specs::Links::next_row))]
pub fn next_row(rows: &[u32], n: usize, i: usize) -> usize
    requires { AtRow rows.now n i }
    ensures { result ≡ next_row rows.now n i }
{
    let row = row_at(rows, i);
    next_from(rows, n, i + 1, is_erased(row.flags))
}

// The row of a key that row i names, or n.
#[tactic(auto, unfolding(crate::specs::Links::row_number))]
fn row_number(rows: &[u32], n: usize, i: usize, key: u32) -> usize
    requires { AtRow rows.now n i }
    ensures { result ≡ row_number n (row_of_key rows.now n key) }
{
    find_row_near(rows, n, i, key).unwrap_or(n)
}

// The row that the first Sibling reference of row i names, n where no row has that key; without a reference the next row.
#[tactic(auto, unfolding(crate::specs::Links::sibling_row, crate::specs::Links::sibling_by))]
pub fn sibling_row(t: &Table<'_, '_>, i: usize) -> usize
    requires { AtRow t.now.rows.now t.now.counts.rows i }
    ensures { result ≡ sibling_row (table_rows (table_of t.now)) i }
{
    match reference_of(t, i, SIBLING) {
        Some(key) => row_number(t.rows, t.counts.rows, i, key),
        None => next_row(t.rows, t.counts.rows, i),
    }
}
