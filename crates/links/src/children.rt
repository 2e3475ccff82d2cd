// The child walk, into lent room: the row numbers of a row's children.
ghost use Rattle.tables.specs.Table.{table_of, table_rows};
ghost use Rattle.format.specs.Said.{said_counted};
ghost use Rattle.std.specs.Prelude.{◌≡◌, []};
ghost use Rattle.lent.specs.Outcome.{Given};
ghost use Rattle.links.specs.Walk.{walk_from};
ghost use Rattle.links.specs.Links.{sibling_row, child_walk};
ghost use Rattle.links.specs.Inside.Links.{RowsHold};
ghost use Rattle.links.specs.Inside.Children.{gathered_into, Gathers, TakesChild, Small, Asked, listed_into};
ghost use Rattle.links.specs.Children.{children_of_key};

use crate::link::{next_row, sibling_row};
use format::refusal::{Reason, Refusal, Unfilled};
use lent::cells::put;
use tables::keyed::row_of;
use tables::row::row_at;
use tables::table::Table;

// A row that is met: null entries are passed by.
#[tactic(auto, unfolding(crate::specs::Links::null_row))]
fn take_child(rows: &[u32], c: usize, room: &mut [u32], k: usize) -> usize
    requires { Small c k }
    ensures { TakesChild rows.now c k result room.old room.new }
{
    let row = row_at(rows, c);
    if row.kind == 0 {
        k
    } else {
        put(room, k, c as u32);
        k + 1
    }
}

// The walk from a row on, sibling by sibling, up to `end`; more turns than rows are endless.
fn walk(t: &Table<'_, '_>, end: usize, from: usize, room: &mut [u32]) -> Option<usize>
    requires { RowsHold t.now.rows.now t.now.counts.rows }
    ensures { Gathers (gathered_into t.now.rows.now 0 room.old
        (walk_from t.now.counts.rows (λ c. sibling_row (table_rows (table_of t.now)) c) end t.now.counts.rows from)) result room.new }
{
    let mut c = from;
    let mut k = 0;
    let mut turns = 0;
    while c != end {
        if t.counts.rows <= c {
            return Some(k);
        }
        if t.counts.rows <= turns {
            return None;
        }
        k = take_child(t.rows, c, room, k);
        c = sibling_row(t, c);
        turns += 1;
    }
    Some(k)
}

// The child walk of row i.
#[tactic(auto, unfolding(crate::specs::Links::child_walk))]
fn gather(t: &Table<'_, '_>, i: usize, room: &mut [u32]) -> Option<usize>
    requires { Asked t.now.rows.now t.now.counts.rows i }
    ensures { Gathers (gathered_into t.now.rows.now 0 room.old (child_walk (table_rows (table_of t.now)) i)) result room.new }
{
    let end = sibling_row(t, i);
    let from = next_row(t.rows, t.counts.rows, i);
    walk(t, end, from, room)
}

// The same into no room: it counts.
pub fn count_children(t: &Table<'_, '_>, i: usize) -> Option<usize>
    requires { Asked t.now.rows.now t.now.counts.rows i }
    ensures { result ≡ (gathered_into t.now.rows.now 0 [] (child_walk (table_rows (table_of t.now)) i)).answer }
{
    let mut room = [0u32; 0];
    gather(t, i, &mut room)
}

// The children of row i, whose key it is: counted first, so that a refusal has written nothing.
fn give(t: &Table<'_, '_>, i: usize, key: u32, room: &mut [u32]) -> Result<usize, Unfilled<usize>>
    requires { Asked t.now.rows.now t.now.counts.rows i }
    ensures { Given (listed_into t.now.rows.now key room.old (child_walk (table_rows (table_of t.now)) i)) (said_counted result) room.new }
{
    let Some(k) = count_children(t, i) else {
        return Err(Unfilled::Refused(Refusal {
            reason: Reason::Link,
            place: key as u64,
        }));
    };
    if k <= room.len() {
        gather(t, i, room);
        Ok(k)
    } else {
        Err(Unfilled::Room(k))
    }
}

// The row numbers of the children of the row that has this key; or a refusal, and the room stays as it was.
pub fn children(t: &Table<'_, '_>, key: u32, room: &mut [u32]) -> Result<usize, Unfilled<usize>>
    ensures { Given (children_of_key (table_of t.now) key room.old) (said_counted result) room.new }
{
    let i = row_of(t, key)?;
    give(t, i, key, room)
}
