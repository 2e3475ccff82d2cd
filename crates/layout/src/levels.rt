// The sizes of all rows of a table, level by level: the sizes of one level give those of the next, each row's once, so that the cost is bounded by rows times depth.
ghost use Rattle.format.specs.Said.{said};
ghost use Rattle.std.specs.Prelude.{◌≡◌, false, cond, ◌*◌, ◌≤◌, length};
ghost use Rattle.records.specs.Inside.Enumeration.{AskedShort};
ghost use Rattle.sizes.specs.Inside.Lent.{over_sizes};
ghost use Rattle.sizes.specs.Inside.Noted.{noted_width};
ghost use Rattle.sizes.specs.Inside.Kept.{PartsKept, AllKept};
ghost use Rattle.layout.specs.Inside.Levels.{deepest, last_level, settled, next_level, size_left, NotedUpTo, LevelFilled, FillAsked, TakenOver};

use format::limits::DEPTH_LIMIT;
use format::refusal::{Reason, Refusal, number_of};
use records::scan::refused;
use sizes::many::row_size;
use sizes::noted::{KNOWN_WIDTH, noted_at, put_noted, put_refusal};
use sizes::prepare::{Shape, shape_of};
use tables::row::row_at;
use tables::table::Table;

// Where no level is left every row is past the limit.
#[tactic(auto, unfolding(crate::specs::Inside::Levels::last_level))]
fn last_level(rows: &[u32], n: usize, noted: &mut [u64])
    requires { n * noted_width ≤ length noted.old }
    ensures { NotedUpTo (last_level rows.now) n n noted.new }
{
    for i in 0..n {
        let row = row_at(rows, i);
        put_refusal(noted, i, refused(Reason::Depth, row.key));
    }
}

// Only a refusal for its depth can change with a level more.
#[tactic(auto, unfolding(crate::specs::Inside::Levels::settled, format::specs::Said::said))]
fn is_settled(size: Result<u32, Refusal>) -> bool
    ensures { result ≡ settled (said size) }
{
    match size {
        Ok(_) => true,
        Err(why) => number_of(why.reason) != 10,
    }
}

// Row i with one level more: the entries that it names have the sizes that are noted.
#[tactic(auto, unfolding(crate::specs::Inside::Levels::next_level, sizes::specs::Size::row_size, sizes::specs::Size::shape_size, format::specs::Said::said))]
fn next_size(t: &Table<'_, '_>, noted: &[u64], kept: &[u64], i: usize) -> Result<u32, Refusal>
    requires { AskedShort t.now.section.now t.now.rows.now t.now.counts.rows i × over_sizes AllKept t.now noted.now kept.now }
    ensures { said result ≡ over_sizes next_level t.now noted.now i }
{
    let size = noted_at(noted, i);
    if is_settled(size) {
        return size;
    }
    let row = row_at(t.rows, i);
    match shape_of(row.kind) {
        Shape::Other => Err(refused(Reason::Kind, row.key)),
        _ => row_size(t, noted, kept, 0, i),
    }
}

// Are all settled, if those before were?
fn also_settled(were: bool, size: Result<u32, Refusal>) -> bool
    ensures { result ≡ cond were (settled (said size)) false }
{
    were && is_settled(size)
}

// One level more; are all rows settled?
fn next_level(t: &Table<'_, '_>, noted: &[u64], kept: &[u64], next: &mut [u64]) -> bool
    requires { FillAsked t.now.section.now t.now.rows.now t.now.counts.rows next.old × over_sizes AllKept t.now noted.now kept.now }
    ensures { LevelFilled (over_sizes next_level t.now noted.now) t.now.counts.rows t.now.counts.rows
        next.new result }
{
    let mut all = true;
    for i in 0..t.counts.rows {
        let size = next_size(t, noted, kept, i);
        put_noted(next, i, size);
        all = also_settled(all, size);
    }
    all
}

// The first words of `noted` become those of `next`; were they the same already?
fn take_over(noted: &mut [u64], next: &[u64], words: usize) -> bool
    requires { words ≤ length noted.old × words ≤ length next.now }
    ensures { TakenOver words noted.old next.now result noted.new }
{
    let mut same = true;
    for k in 0..words {
        if noted[k] != next[k] {
            same = false;
            noted[k] = next[k];
        }
    }
    same
}

// The sizes of all rows, the entry that is asked for being depth 2. Once all are settled, or a level changes nothing, none above it does.
pub(crate) fn fill_noted(t: &Table<'_, '_>, kept: &[u64], noted: &mut [u64], next: &mut [u64])
    requires { FillAsked t.now.section.now t.now.rows.now t.now.counts.rows noted.old ×
        (FillAsked t.now.section.now t.now.rows.now t.now.counts.rows next.old × over_sizes PartsKept t.now kept.now) }
    ensures { NotedUpTo (over_sizes size_left t.now deepest) t.now.counts.rows t.now.counts.rows noted.new }
{
    last_level(t.rows, t.counts.rows, noted);
    for _level in 0..DEPTH_LIMIT - 1 {
        let all = next_level(t, noted, kept, next);
        if take_over(noted, next, t.counts.rows * KNOWN_WIDTH) {
            return;
        }
        if all {
            return;
        }
    }
}
