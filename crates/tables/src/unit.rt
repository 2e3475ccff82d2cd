// Which unit a row belongs to: the nearest row of kind CompileUnit at or before it, by the order of rows.
ghost use Rattle.std.specs.Prelude.{◌*◌, ◌≤◌, ◌≡◌, length};
ghost use Rattle.std.proofs.lemmas.List.Edits.{sets};
ghost use Rattle.tables.specs.Row.{row_width, rows_from, rows_words};
ghost use Rattle.tables.specs.Unit.{no_unit, unit_of, units_hold, with_units};

use crate::row::{Row, row_at};
use crate::store::put_unit;
use format::tag_kind::COMPILE_UNIT;

// The mark for none. Every row's key is below it.
pub const NO_UNIT: u32 = 0xffffffff;

// A row's unit, given that of the row before it: a row of kind CompileUnit is its own.
#[tactic(auto, unfolding(crate::specs::Unit::unit_of))]
pub fn unit_of(before: u32, row: Row) -> u32
    ensures { result ≡ unit_of before row }
{
    if row.kind == COMPILE_UNIT as u32 {
        row.key
    } else {
        before
    }
}

// Has each of the table's n rows its unit?
#[tactic(auto, using(crate::proofs::Laws::Unit::units_step), unfolding(crate::specs::Unit::units_hold))]
pub(crate) fn units_hold(rows: &[u32], n: usize) -> bool
    ensures { result ≡ units_hold rows.now 0 n no_unit }
{
    let mut unit = NO_UNIT;
    for i in 0..n {
        let row = row_at(rows, i);
        unit = unit_of(unit, row);
        if row.unit != unit {
            return false;
        }
    }
    true
}

// Each of the table's n rows, which are all there, gets its unit.
#[tactic(auto, using(crate::proofs::Laws::Unit::put_steps))]
pub fn put_units(rows: &mut [u32], n: usize)
    requires { n * row_width ≤ length rows.old }
    ensures { rows.new ≡ sets rows.old 0 (rows_words (with_units (rows_from rows.old 0 n))) }
{
    let mut unit = NO_UNIT;
    for i in 0..n {
        unit = unit_of(unit, row_at(rows, i));
        put_unit(rows, i, unit);
    }
}
