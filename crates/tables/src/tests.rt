// The tests that every public call on a table makes first: 1, 2, 3.
ghost use Rattle.std.specs.Prelude.{◌≡◌, Err};
ghost use Rattle.tables.specs.Table.{table_of};
ghost use Rattle.tables.specs.Tests.{Tells};
ghost use Rattle.tables.specs.Inside.Keyed.{refused_at};

use crate::holds::table_holds;
use crate::table::Table;
use format::limits::SECTION_LIMIT;
use format::refusal::{Reason, Refusal};
use format::settings::settings_hold;

fn refuse(reason: Reason) -> Result<(), Refusal>
    ensures { result ≡ Err (refused_at 0 reason) }
{
    Err(Refusal { reason, place: 0 })
}

// The tests that every call on a table makes first: 1 settings, 2 long, 3 table.
pub fn test_table(t: &Table<'_, '_>) -> Result<(), Refusal>
    ensures { Tells (table_of t.now) result }
{
    if !settings_hold(t.settings, t.vendors, t.sizes) {
        return refuse(Reason::Settings);
    }
    if t.section.len() >= SECTION_LIMIT {
        return refuse(Reason::Long);
    }
    if table_holds(t.section, t.vendors, t.rows, t.attrs, t.counts) {
        Ok(())
    } else {
        refuse(Reason::Table)
    }
}
