// Every structure's and class's layout of a table, in file order, in one call that tests the table once. The sizes of all rows are taken first, so that the
// row sizes taken are at most rows times depth.
ghost use Rattle.tables.specs.Table.{table_of, table_rows};
ghost use Rattle.format.specs.Said.{said};
ghost use Rattle.std.specs.Prelude.{◌≡◌, ◌*◌, ◌≤◌, length};
ghost use Rattle.std.proofs.lemmas.List.Edits.{sets};
ghost use Rattle.lent.specs.Outcome.{BothGiven};
ghost use Rattle.sizes.specs.Inside.Lent.{over, over_sizes};
ghost use Rattle.sizes.specs.Size.{type_size};
ghost use Rattle.sizes.specs.Inside.Size.{TableReady, type_size_from};
ghost use Rattle.sizes.specs.Inside.Noted.{noted_width};
ghost use Rattle.layout.specs.Inside.Levels.{deepest, FillAsked};
ghost use Rattle.sizes.specs.Inside.Kept.{AllKept};
ghost use Rattle.layout.specs.All.{said_all_layouts, structure_width, structures_from, all_layouts, layouts_into};
ghost use Rattle.layout.specs.Inside.All.{OneMore, CountAsked, PutAsked, PutsAsked, eight_words, whole_told, counted_on, row_structures};
ghost use Rattle.layout.specs.Inside.All.{WholesTold, RowCounted, AllCounted, Puts, PutAll};

use crate::keep::keep_rows;
use crate::levels::fill_noted;
use crate::one::{LAID_WIDTH, Layout, read_layout};
use format::attribute_kind::NAME;
use format::refusal::{Refusal, Unfilled, number_of};
use lent::cells::put;
use records::fields::{Text, last_name};
use records::member_words::{name_length, name_place};
use records::scan::run_of;
use sizes::noted::{noted_at, put_noted};
use sizes::prepare::is_structure;
use tables::row::row_at;
use tables::table::Table;
use tables::tests::test_table;

#[derive(Clone, Copy)]
pub struct LayoutCounts {
    pub structures: usize,
    pub members: usize,
}

// The words of a structure: row; 0, size and 0, or a refusal's number, 0 and place; its first member, and how many; place and length of its name.
pub const STRUCTURE_WIDTH: usize = 8;

// Three words for each of 4,096 rows.
const KNOWN_WORDS: usize = 12288;

// Three answers for each.
const KEPT_WORDS: usize = 36864;

// One structure more, with so many members.
#[tactic(auto, unfolding(crate::specs::Inside::All::counted_on))]
fn one_more(counts: LayoutCounts, members: usize) -> LayoutCounts
    requires { OneMore counts members }
    ensures { result ≡ counted_on counts members }
{
    LayoutCounts {
        structures: counts.structures + 1,
        members: counts.members + members,
    }
}

// What is kept of a layout between counting and writing: its size, or why it is refused.
fn size_told(answer: Result<Layout, Refusal>) -> Result<u32, Refusal>
    ensures { said result ≡ whole_told (said answer) }
{
    let found = answer?;
    Ok(found.size)
}

// Row i counted too, if it is a structure, and what its layout tells kept.
fn count_row(
    t: &Table<'_, '_>,
    noted: &[u64],
    kept: &[u64],
    told: &mut [u64],
    i: usize,
    counts: LayoutCounts,
) -> LayoutCounts
    requires { CountAsked t.now.section.now t.now.rows.now t.now.counts.rows i counts ×
        (t.now.counts.rows * noted_width ≤ length told.old × over_sizes AllKept t.now noted.now kept.now) }
    ensures { over RowCounted t.now
        (over_sizes type_size_from t.now noted.now 0) i counts result
        told.old told.new }
{
    let row = row_at(t.rows, i);
    if !is_structure(row.kind) {
        return counts;
    }
    let mut none = [0u64; 0];
    let answer = read_layout(t, noted, kept, 0, i, &mut none);
    put_noted(told, i, size_told(answer));
    match answer {
        Ok(found) => one_more(counts, found.members),
        Err(_) => one_more(counts, 0),
    }
}

// How many structures and members there are, whatever the room.
fn count_layouts(t: &Table<'_, '_>, noted: &[u64], kept: &[u64], told: &mut [u64]) -> LayoutCounts
    requires { FillAsked t.now.section.now t.now.rows.now t.now.counts.rows told.old × over_sizes AllKept t.now noted.now kept.now }
    ensures { over AllCounted t.now
        (over_sizes type_size_from t.now noted.now 0) result
        told.new }
{
    let mut counts = LayoutCounts {
        structures: 0,
        members: 0,
    };
    for i in 0..t.counts.rows {
        counts = count_row(t, noted, kept, told, i, counts);
    }
    counts
}

// The words of structure number k, if they fit.
#[tactic(auto, unfolding(crate::specs::Inside::All::eight_words))]
fn put_structure(
    structures: &mut [u64],
    k: usize,
    row: usize,
    number: u32,
    size: u32,
    place: u64,
    first: usize,
    members: usize,
    name: Option<Text>,
)
    ensures { structures.new ≡ sets structures.old (k * structure_width) (eight_words row number size place first members name) }
{
    if k < structures.len() {
        let at = k * STRUCTURE_WIDTH;
        put(structures, at, row as u64);
        put(structures, at + 1, number as u64);
        put(structures, at + 2, size as u64);
        put(structures, at + 3, place);
        put(structures, at + 4, first as u64);
        put(structures, at + 5, members as u64);
        put(structures, at + 6, name_place(name));
        put(structures, at + 7, name_length(name));
    }
}

// Row i, if it is a structure: its words after those of the others, its members after theirs.
fn put_row(
    t: &Table<'_, '_>,
    noted: &[u64],
    kept: &[u64],
    told: &[u64],
    i: usize,
    counts: LayoutCounts,
    structures: &mut [u64],
    members: &mut [u64],
) -> LayoutCounts
    requires { PutAsked t.now.section.now t.now.rows.now t.now.counts.rows i counts members.old ×
        (over WholesTold t.now (over_sizes type_size_from t.now noted.now 0) t.now.counts.rows
        told.now × over_sizes AllKept t.now noted.now kept.now) }
    ensures { Puts (over row_structures t.now
        (over_sizes type_size_from t.now noted.now 0) i) counts result
        structures.old structures.new members.old members.new }
{
    let row = row_at(t.rows, i);
    if !is_structure(row.kind) {
        return counts;
    }
    let name = last_name(
        t.section,
        t.attrs,
        run_of(t.settings.endian, t.rows, i),
        NAME,
    );
    let k = counts.structures;
    let first = counts.members;
    match noted_at(told, i) {
        Ok(_) => {
            let from = first * LAID_WIDTH;
            match read_layout(t, noted, kept, 0, i, &mut members[from..]) {
                Ok(found) => {
                    put_structure(
                        structures,
                        k,
                        i,
                        0,
                        found.size,
                        0,
                        first,
                        found.members,
                        name,
                    );
                    one_more(counts, found.members)
                }
                // What was told of it was a size.
                Err(_) => counts,
            }
        }
        Err(why) => {
            put_structure(
                structures,
                k,
                i,
                number_of(why.reason),
                0,
                why.place,
                first,
                0,
                name,
            );
            one_more(counts, 0)
        }
    }
}

// All of them written; the rooms were found long enough.
fn put_layouts(
    t: &Table<'_, '_>,
    noted: &[u64],
    kept: &[u64],
    told: &[u64],
    structures: &mut [u64],
    members: &mut [u64],
)
    requires { PutsAsked t.now.section.now t.now.rows.now t.now.counts.rows (structures_from t.now.settings (table_rows (table_of t.now))
        (over_sizes type_size_from t.now noted.now 0) 0 t.now.counts.rows) members.old ×
        (over WholesTold t.now (over_sizes type_size_from t.now noted.now 0) t.now.counts.rows
        told.now × over_sizes AllKept t.now noted.now kept.now) }
    ensures { PutAll (structures_from t.now.settings (table_rows (table_of t.now))
        (over_sizes type_size_from t.now noted.now 0) 0 t.now.counts.rows)
        structures.old structures.new members.old members.new }
{
    let mut counts = LayoutCounts {
        structures: 0,
        members: 0,
    };
    for i in 0..t.counts.rows {
        counts = put_row(t, noted, kept, told, i, counts, structures, members);
    }
}

// Counted first, so that with too little room nothing is written; what each layout tells is kept meanwhile, so that none is laid in vain.
fn give_layouts(
    t: &Table<'_, '_>,
    noted: &[u64],
    kept: &[u64],
    told: &mut [u64],
    structures: &mut [u64],
    members: &mut [u64],
) -> Result<LayoutCounts, Unfilled<LayoutCounts>>
    requires { FillAsked t.now.section.now t.now.rows.now t.now.counts.rows told.old × over_sizes AllKept t.now noted.now kept.now }
    ensures { BothGiven (layouts_into structures.old members.old
        (structures_from t.now.settings (table_rows (table_of t.now))
        (over_sizes type_size_from t.now noted.now 0) 0 t.now.counts.rows))
        (said_all_layouts result) structures.new members.new }
{
    let needed = count_layouts(t, noted, kept, told);
    if needed.structures > structures.len() / STRUCTURE_WIDTH {
        return Err(Unfilled::Room(needed));
    }
    if needed.members > members.len() / LAID_WIDTH {
        return Err(Unfilled::Room(needed));
    }
    put_layouts(t, noted, kept, told, structures, members);
    Ok(needed)
}

// Each row is read once, then the sizes of all rows are taken.
fn lay_all(
    t: &Table<'_, '_>,
    structures: &mut [u64],
    members: &mut [u64],
) -> Result<LayoutCounts, Unfilled<LayoutCounts>>
    requires { TableReady t.now.section.now t.now.rows.now t.now.counts.rows }
    ensures { BothGiven (layouts_into structures.old members.old
        (structures_from t.now.settings (table_rows (table_of t.now))
        (type_size t.now.settings t.now.sizes.now (table_rows (table_of t.now)) deepest) 0
        t.now.counts.rows))
        (said_all_layouts result) structures.new members.new }
{
    let mut kept = [0u64; KEPT_WORDS];
    keep_rows(t, &mut kept);
    let mut noted = [0u64; KNOWN_WORDS];
    let mut next = [0u64; KNOWN_WORDS];
    fill_noted(t, &kept, &mut noted, &mut next);
    give_layouts(t, &noted, &kept, &mut next, structures, members)
}

// Every structure's and class's layout, their words and their members' into lent rooms; or a refusal, and both stay as they were.
pub fn all_layouts(
    t: &Table<'_, '_>,
    structures: &mut [u64],
    members: &mut [u64],
) -> Result<LayoutCounts, Unfilled<LayoutCounts>>
    ensures { BothGiven (all_layouts (table_of t.now) structures.old members.old) (said_all_layouts result) structures.new
        members.new }
{
    test_table(t)?;
    lay_all(t, structures, members)
}
