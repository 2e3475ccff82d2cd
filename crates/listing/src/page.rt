// The lines of a listing, one after the other in one page.
ghost use Rattle.std.specs.Prelude.{suc, ◌+◌, ◌*◌, ◌^◌, ◌≤◌, ◌<◌};
ghost use Rattle.listing.specs.Text.{line_limit, rows_text, listing_text, Printed};
ghost use Rattle.digits.specs.Put.{Put};

use crate::line::{write_header, write_row};
use lent::cells::get_or;
use tables::row::row_at;

// No line is longer than 34 bytes, and no more than the header and 1,024 rows are listed.
pub const PAGE_LIMIT: usize = 1025 * 34;

// The lines of the table's n rows into the page from a place on; `room` has a row's depth and its parent. Answers the place after them.
pub fn write_rows(rows: &[u32], room: &[u32], n: usize, page: &mut [u8], at: usize) -> usize
    requires { at + suc n * line_limit < 2 ^ 64 }
    ensures { Put (rows_text rows.now room.now 0 n) at result page.old page.new × (result ≤ at + n * line_limit) }
{
    let mut next = at;
    for i in 0..n {
        let row = row_at(rows, i);
        let depth = get_or(room, 2 * i, 0);
        next = write_row(page, next, row.key, depth, row.kind, row.unit);
    }
    next
}

// The header and the lines of the table's n rows, at the beginning of a page.
pub fn write_listing(rows: &[u32], room: &[u32], n: usize, page: &mut [u8]) -> usize
    requires { n ≤ 1024 }
    ensures { Printed (listing_text rows.now room.now n) result page.old page.new }
{
    let at = write_header(page, 0, n);
    write_rows(rows, room, n, page, at)
}
