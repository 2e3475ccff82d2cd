// The end of a row's reach.
ghost use Rattle.tables.specs.Table.{table_of, table_rows};
ghost use Rattle.std.specs.Prelude.{◌≡◌, ◌<◌};
ghost use Rattle.tables.specs.Find.{row_of_key};
ghost use Rattle.links.specs.Inside.Links.{AtRow};
ghost use Rattle.tree.specs.Reach.{later_row, reach_end};

use links::lookup::reference_of;
use tables::find::find_row_near;
use tables::table::Table;

const SIBLING: u32 = 0x12;

// The row of this key, if it comes after row i; else 0.
#[tactic(auto, unfolding(crate::specs::Reach::later_row))]
fn later_row(rows: &[u32], n: usize, i: usize, key: u32) -> usize
    requires { AtRow rows.now n i }
    ensures { result ≡ later_row i (row_of_key rows.now n key) }
{
    match find_row_near(rows, n, i, key) {
        Some(j) if i < j => j,
        _ => 0,
    }
}

// The end of row i's reach, or 0: its reference is bad.
#[tactic(auto, unfolding(crate::specs::Reach::reach_end, crate::specs::Reach::reach_by))]
pub(crate) fn end_of(t: &Table<'_, '_>, i: usize) -> usize
    requires { AtRow t.now.rows.now t.now.counts.rows i }
    ensures { result ≡ reach_end (table_rows (table_of t.now)) i }
{
    match reference_of(t, i, SIBLING) {
        Some(key) if key as usize == t.section.len() => t.counts.rows,
        Some(key) => later_row(t.rows, t.counts.rows, i, key),
        None => i + 1,
    }
}
