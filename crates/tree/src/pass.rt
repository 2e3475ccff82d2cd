// One pass over the rows with the open ones on a stack: depth and parent of each.
ghost use Rattle.tables.specs.Table.{table_of, table_rows};
ghost use Rattle.std.specs.Prelude.{◌≡◌, [], ◌∷◌, ◌*◌};
ghost use Rattle.std.proofs.lemmas.List.Edits.{sets};
ghost use Rattle.links.specs.Inside.Links.{RowsHold};
ghost use Rattle.tree.specs.Reach.{reach_end};
ghost use Rattle.tree.specs.Tree.{place_width};
ghost use Rattle.tree.specs.Inside.Passing.{OpenListed};
ghost use Rattle.tree.specs.Inside.Stack.{top_of, height_at};

use crate::listing::PLACE_WIDTH;
use crate::reach::end_of;
use format::limits::DEPTH_LIMIT;
use lent::cells::{get_or, put};
use tables::table::Table;

// A row that lies at the greatest depth is still opened.
const OPEN_LIMIT: usize = DEPTH_LIMIT + 1;

// How many of the h rows on the stack stay open at row j: those whose reach has ended are taken off.
fn close(ends: &[u32], h: usize, j: usize) -> usize
    ensures { result ≡ height_at j ends.now h }
{
    for k in (0..h).rev() {
        let end = get_or(ends, k, 0) as usize;
        if j < end {
            return k + 1;
        }
    }
    0
}

// The nearest of the h rows on the stack, which holds each row plus one; 0 for none.
#[tactic(auto, unfolding(crate::specs::Inside::Stack::top_of))]
fn nearest_of(stack: &[u32], h: usize) -> u32
    ensures { result ≡ top_of stack.now h }
{
    if h == 0 { 0 } else { get_or(stack, h - 1, 0) }
}

// A row's two words into the room, where they fit.
fn put_place(room: &mut [u32], i: usize, depth: u32, parent: u32)
    ensures { room.new ≡ sets room.old (i * place_width) (depth ∷ parent ∷ []) }
{
    if i < room.len() {
        let at = i * PLACE_WIDTH;
        put(room, at, depth);
        put(room, at + 1, parent);
    }
}

// Depth and parent of each row into the room, as far as they fit; the first row that lies too deep, or n.
pub(crate) fn list_rows(t: &Table<'_, '_>, room: &mut [u32]) -> usize
    requires { RowsHold t.now.rows.now t.now.counts.rows }
    ensures { OpenListed (λ c. reach_end (table_rows (table_of t.now)) c) t.now.counts.rows result room.old room.new }
{
    let mut stack = [0u32; OPEN_LIMIT];
    let mut ends = [0u32; OPEN_LIMIT];
    let mut h = 0;
    for j in 0..t.counts.rows {
        h = close(&ends, h, j);
        if DEPTH_LIMIT < h {
            return j;
        }
        let parent = nearest_of(&stack, h);
        put_place(room, j, h as u32, parent);
        put(&mut stack, h, (j + 1) as u32);
        let end = end_of(t, j);
        put(&mut ends, h, end as u32);
        h += 1;
    }
    t.counts.rows
}
