// The children of a row one at a time, for callers that lend no room. The walk must be one that ends: `any_child` tells.
ghost use Rattle.std.specs.Prelude.{◌≡◌};
ghost use Rattle.links.specs.Inside.EachChild.{first_or, children_from, Ends};

use crate::link::sibling_row;
use tables::row::row_at;
use tables::table::Table;

// The first child that the walk from `from` on meets, or n where it meets none before `end`.
pub fn child_from(t: &Table<'_, '_>, end: usize, from: usize) -> usize
    requires { Ends t.now.settings.endian t.now.section.now t.now.rows.now t.now.attrs.now t.now.counts.rows end from }
    ensures { result ≡ first_or t.now.counts.rows
        (children_from t.now.settings.endian t.now.section.now t.now.rows.now t.now.attrs.now t.now.counts.rows end from) }
{
    let mut c = from;
    while c != end {
        if t.counts.rows <= c {
            return t.counts.rows;
        }
        let row = row_at(t.rows, c);
        if row.kind != 0 {
            return c;
        }
        c = sibling_row(t, c);
    }
    t.counts.rows
}
