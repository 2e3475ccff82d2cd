// Storing a row, its unit and an attribute. What does not fit is not stored.
ghost use Rattle.std.specs.Prelude.{◌≡◌};
ghost use Rattle.tables.specs.Row.{put_row, put_unit, put_attr};

use crate::row::{ATTR_WIDTH, Attr, ROW_WIDTH, Row};
use lent::cells::put;

// Row i stored; what does not fit is not.
#[tactic(auto, unfolding(crate::specs::Row::row_words))]
pub fn put_row(rows: &mut [u32], i: usize, row: Row)
    ensures { rows.new ≡ put_row rows.old i row }
{
    if i < rows.len() {
        let at = i * ROW_WIDTH;
        put(rows, at, row.key);
        put(rows, at + 1, row.kind);
        put(rows, at + 2, row.flags);
        put(rows, at + 3, row.first);
        put(rows, at + 4, row.count);
        put(rows, at + 5, row.unit);
    }
}

// The unit of row i stored, where there is such a row.
#[tactic(auto, unfolding(crate::specs::Row::put_unit))]
pub fn put_unit(rows: &mut [u32], i: usize, unit: u32)
    ensures { rows.new ≡ put_unit rows.old i unit }
{
    if i < rows.len() {
        put(rows, i * ROW_WIDTH + 5, unit);
    }
}

// Attribute i stored; what does not fit is not.
#[tactic(auto, unfolding(crate::specs::Row::attr_words))]
pub fn put_attr(attrs: &mut [u32], i: usize, attr: Attr)
    ensures { attrs.new ≡ put_attr attrs.old i attr }
{
    if i < attrs.len() {
        let at = i * ATTR_WIDTH;
        put(attrs, at, attr.number);
        put(attrs, at + 1, attr.value);
    }
}
