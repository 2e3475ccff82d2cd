// The row of a key, after the tests that every call on a table makes first: what every record and every lookup begins with.
ghost use Rattle.std.specs.Prelude.{◌≡◌};
ghost use Rattle.format.specs.Said.{said};
ghost use Rattle.tables.specs.Table.{table_of};
ghost use Rattle.tables.specs.Find.{row_of_key};
ghost use Rattle.tables.specs.Inside.Find.{Rising};
ghost use Rattle.tables.specs.Keyed.{found_row, row_of};

use crate::find::find_row;
use crate::table::Table;
use crate::tests::test_table;
use format::refusal::{Reason, Refusal};

// The row of a key, in a table that was tested.
#[tactic(auto, unfolding(crate::specs::Keyed::found_row, format::specs::Said::said))]
fn find_key(rows: &[u32], n: usize, key: u32) -> Result<usize, Refusal>
    requires { Rising rows.now n }
    ensures { said result ≡ found_row key (row_of_key rows.now n key) }
{
    find_row(rows, n, key).ok_or(Refusal {
        reason: Reason::Entry,
        place: u64::from(key),
    })
}

// The same after the tests 1, 2, 3.
pub fn row_of(t: &Table<'_, '_>, key: u32) -> Result<usize, Refusal>
    ensures { said result ≡ row_of (table_of t.now) key }
{
    test_table(t)?;
    find_key(t.rows, t.counts.rows, key)
}
