// Whether a row has a child, for callers that keep none: the walk is gone over to its end, since one that never ends is refused whatever it meets.
ghost use Rattle.tables.specs.Table.{table_of, table_rows};
ghost use Rattle.std.specs.Prelude.{◌≡◌, false};
ghost use Rattle.links.specs.Links.{child_walk};
ghost use Rattle.links.specs.Inside.Links.{RowsHold};
ghost use Rattle.links.specs.Inside.Children.{Asked};
ghost use Rattle.links.specs.Inside.EachChild.{walk_on};
ghost use Rattle.links.specs.Inside.AnyChild.{gone_over};

use crate::link::{next_row, sibling_row};
use tables::row::row_at;
use tables::table::Table;

// The walk from a row on, sibling by sibling, up to `end`; more turns than rows are endless.
fn go_over(t: &Table<'_, '_>, end: usize, from: usize) -> Option<bool>
    requires { RowsHold t.now.rows.now t.now.counts.rows }
    ensures { result ≡ gone_over t.now.rows.now false
        (walk_on t.now.settings.endian t.now.section.now t.now.rows.now t.now.attrs.now t.now.counts.rows end from) }
{
    let mut c = from;
    let mut met = false;
    let mut turns = 0;
    while c != end {
        if t.counts.rows <= c {
            return Some(met);
        }
        if t.counts.rows <= turns {
            return None;
        }
        let row = row_at(t.rows, c);
        met |= row.kind != 0;
        c = sibling_row(t, c);
        turns += 1;
    }
    Some(met)
}

// The child walk of row i: null entries are no children.
#[tactic(auto, unfolding(crate::specs::Links::child_walk, crate::specs::Inside::EachChild::walk_on))]
pub fn any_child(t: &Table<'_, '_>, i: usize) -> Option<bool>
    requires { Asked t.now.rows.now t.now.counts.rows i }
    ensures { result ≡ gone_over t.now.rows.now false (child_walk (table_rows (table_of t.now)) i) }
{
    let end = sibling_row(t, i);
    let from = next_row(t.rows, t.counts.rows, i);
    go_over(t, end, from)
}
