// The table test, refusal 3: on any words that a caller lends.
ghost use Rattle.std.specs.Prelude.{◌≡◌, ◌+◌, ◌^◌, ◌<◌};
ghost use Rattle.tables.specs.Holds.{attr_holds, run_holds, row_holds, rows_hold, table_holds};
ghost use Rattle.tables.specs.Inside.Holds.{head_holds};

use crate::row::{ATTR_WIDTH, Attr, Counts, ROW_WIDTH, Row, attr_at, endian_of, row_at};
use crate::unit::units_hold;
use attributes::read::end_if_known;
use format::limits::{ATTRIBUTE_LIMIT, ENTRY_LIMIT};
use format::tag_kind::is_tag;
use numbers::Endian;

// A known number, and a value wholly inside the section.
#[tactic(auto, unfolding(crate::specs::Holds::attr_holds, crate::specs::Holds::is_at, attributes::specs::Inside::Read::known_end, attributes::specs::Inside::Read::end_told))]
fn attr_holds(s: &[u8], vendors: &[u16], e: Endian, attr: Attr) -> bool
    ensures { result ≡ attr_holds s.now vendors.now e attr }
{
    if attr.number >= 65536 {
        return false;
    }
    end_if_known(s, attr.value as usize, attr.number as u16, e, vendors).is_some()
}

// The n attributes from `first` on.
#[tactic(auto, using(crate::proofs::Laws::Holds::run_step), unfolding(crate::specs::Holds::run_holds))]
fn run_holds(s: &[u8], vendors: &[u16], e: Endian, attrs: &[u32], first: usize, n: usize) -> bool
    requires { first + n < 2 ^ 64 }
    ensures { result ≡ run_holds s.now vendors.now e attrs.now first n }
{
    for k in 0..n {
        if !attr_holds(s, vendors, e, attr_at(attrs, first + k)) {
            return false;
        }
    }
    true
}

// A row by itself: its key is no lower than `least` and inside the section, its kind and its flags are known.
#[tactic(auto, using(crate::proofs::Laws::Holds::no_tag), unfolding(crate::specs::Inside::Holds::head_holds))]
fn head_holds(s: &[u8], least: usize, row: Row) -> bool
    ensures { result ≡ head_holds s.now least row }
{
    let key = row.key as usize;
    if key < least {
        return false;
    }
    if key >= s.len() {
        return false;
    }
    if row.kind >= 65536 {
        return false;
    }
    if row.flags > 7 {
        return false;
    }
    is_tag(row.kind as u16)
}

// One row in the table: besides, its run must begin at `run` and end inside the table's `total` attributes, and each of them holds.
#[tactic(auto, unfolding(crate::specs::Holds::row_holds, crate::specs::Inside::Holds::head_holds))]
fn row_holds(
    s: &[u8],
    vendors: &[u16],
    attrs: &[u32],
    total: usize,
    least: usize,
    run: usize,
    row: Row,
) -> bool
    ensures { result ≡ row_holds s.now vendors.now attrs.now total least run row }
{
    let count = row.count as usize;
    if !head_holds(s, least, row) {
        return false;
    }
    if row.first as usize != run {
        return false;
    }
    if total < run {
        return false;
    }
    if total - run < count {
        return false;
    }
    run_holds(s, vendors, endian_of(row.flags), attrs, run, count)
}

// The table's n rows, whose runs must come to `total` attributes.
#[tactic(auto, using(crate::proofs::Laws::Holds::rows_step), unfolding(crate::specs::Holds::rows_hold))]
fn rows_hold(s: &[u8], vendors: &[u16], rows: &[u32], n: usize, attrs: &[u32], total: usize) -> bool
    ensures { result ≡ rows_hold s.now vendors.now rows.now attrs.now total 0 n 0 0 }
{
    let mut least = 0;
    let mut run = 0;
    for i in 0..n {
        let row = row_at(rows, i);
        if !row_holds(s, vendors, attrs, total, least, run, row) {
            return false;
        }
        least = row.key as usize + 4;
        run += row.count as usize;
    }
    run == total
}

// Is it a table that can be read with this section and this vendor list? Refusal 3 is given exactly where it is not.
#[tactic(auto, unfolding(crate::specs::Holds::table_holds, crate::specs::Holds::fitting))]
pub fn table_holds(s: &[u8], vendors: &[u16], rows: &[u32], attrs: &[u32], counts: Counts) -> bool
    ensures { result ≡ table_holds s.now vendors.now rows.now attrs.now counts }
{
    let n = counts.rows;
    let total = counts.attrs;
    if ENTRY_LIMIT < n {
        return false;
    }
    if rows.len() < n * ROW_WIDTH {
        return false;
    }
    if ATTRIBUTE_LIMIT < total {
        return false;
    }
    if attrs.len() < total * ATTR_WIDTH {
        return false;
    }
    if !rows_hold(s, vendors, rows, n, attrs, total) {
        return false;
    }
    units_hold(rows, n)
}
