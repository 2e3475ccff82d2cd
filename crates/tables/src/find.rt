// The row of a key, by bisection: a tested table's keys rise.
ghost use Rattle.std.specs.Prelude.{◌≡◌, ◌<◌};
ghost use Rattle.tables.specs.Find.{row_of_key};
ghost use Rattle.tables.specs.Inside.Find.{Rising};
ghost use Rattle.tables.specs.Inside.Find.{Between, FirstFrom};

use crate::row::ROW_WIDTH;
use lent::cells::get_or;

// The first of the n rows whose key is not below `key`, or n where there is none: it stands between low and high.
fn first_between(rows: &[u32], n: usize, low: usize, high: usize, key: u32) -> usize
    requires { Rising rows.now n × Between rows.now n key low high }
    ensures { FirstFrom rows.now n key result }
{
    let mut from = low;
    let mut to = high;
    while from < to {
        let middle = from + (to - from) / 2;
        if get_or(rows, middle * ROW_WIDTH, 0) < key {
            from = middle + 1;
        } else {
            to = middle;
        }
    }
    from
}

// The same where it stands from low on, mostly near: by steps that double until one reaches the key.
fn first_after(rows: &[u32], n: usize, low: usize, key: u32) -> usize
    requires { Rising rows.now n × Between rows.now n key low n }
    ensures { FirstFrom rows.now n key result }
{
    let mut from = low;
    let mut step = 1;
    while step < n - from {
        let probe = from + step;
        if get_or(rows, probe * ROW_WIDTH, 0) >= key {
            return first_between(rows, n, from, probe, key);
        }
        from = probe + 1;
        step = step * 2;
    }
    first_between(rows, n, from, n, key)
}

// The row that has this key, if any: row i, the first whose key is not below it.
fn row_first(rows: &[u32], n: usize, i: usize, key: u32) -> Option<usize>
    requires { Rising rows.now n × FirstFrom rows.now n key i }
    ensures { result ≡ row_of_key rows.now n key }
{
    if i >= n {
        return None;
    }
    if get_or(rows, i * ROW_WIDTH, 0) == key {
        Some(i)
    } else {
        None
    }
}

// The row, of the table's n, that has this key.
pub fn find_row(rows: &[u32], n: usize, key: u32) -> Option<usize>
    requires { Rising rows.now n }
    ensures { result ≡ row_of_key rows.now n key }
{
    let i = first_between(rows, n, 0, n, key);
    row_first(rows, n, i, key)
}

// The same; references mostly name the row after the one that has them, or one near it, so the search begins at the row after row i.
pub fn find_row_near(rows: &[u32], n: usize, i: usize, key: u32) -> Option<usize>
    requires { Rising rows.now n × (i < n) }
    ensures { result ≡ row_of_key rows.now n key }
{
    let next = i + 1;
    if next >= n {
        return find_row(rows, n, key);
    }
    let there = get_or(rows, next * ROW_WIDTH, 0);
    if there == key {
        return Some(next);
    }
    if there < key {
        let after = first_after(rows, n, next + 1, key);
        return row_first(rows, n, after, key);
    }
    let before = first_between(rows, n, 0, next, key);
    row_first(rows, n, before, key)
}
