// The fields of a line, and lines. Each is written into the line buffer from a place on, where the last field ended, and answers the place after it.
ghost use Rattle.std.specs.Prelude.{◌≡◌, ◌+◌, ◌^◌, ◌<◌, min, length};
ghost use Rattle.digits.specs.Digits.{hex_text, decimal_text};
ghost use Rattle.listing.specs.Text.{line_limit, header_text, entry_text, unit_text, row_text, refusal_text};
ghost use Rattle.digits.specs.Put.{Put};

use digits::decimal::write_decimal;
use digits::hex::write_hex;
use digits::text::write_text;
use tables::unit::NO_UNIT;

// Where the rest of a line of so many bytes begins.
fn rest_at(at: usize, n: usize) -> usize
    ensures { result ≡ min at n }
{
    if at < n { at } else { n }
}

fn put_text(line: &mut [u8], at: usize, text: &[u8]) -> usize
    requires { at + length text.now < 2 ^ 64 }
    ensures { Put text.now at result line.old line.new }
{
    let from = rest_at(at, line.len());
    at + write_text(&mut line[from..], text)
}

fn put_hex(line: &mut [u8], at: usize, w: usize, v: u64) -> usize
    requires { at + w < 2 ^ 64 }
    ensures { Put (hex_text w v) at result line.old line.new }
{
    let from = rest_at(at, line.len());
    at + write_hex(&mut line[from..], w, v)
}

fn put_decimal(line: &mut [u8], at: usize, v: u64) -> usize
    requires { at + 20 < 2 ^ 64 }
    ensures { Put (decimal_text v) at result line.old line.new }
{
    let from = rest_at(at, line.len());
    at + write_decimal(&mut line[from..], v)
}

// 'rows N'
pub fn write_header(line: &mut [u8], at: usize, n: usize) -> usize
    requires { at + line_limit < 2 ^ 64 }
    ensures { Put (header_text n) at result line.old line.new }
{
    let number = put_text(line, at, b"rows ");
    let end = put_decimal(line, number, n as u64);
    put_text(line, end, b"\n")
}

// 'KEY DEPTH TAG'
fn put_entry(line: &mut [u8], at: usize, key: u32, depth: u32, kind: u32) -> usize
    requires { at + line_limit < 2 ^ 64 }
    ensures { Put (entry_text key depth kind) at result line.old line.new }
{
    let key_end = put_hex(line, at, 8, key as u64);
    let second = put_text(line, key_end, b" ");
    let depth_end = put_decimal(line, second, depth as u64);
    let third = put_text(line, depth_end, b" ");
    put_hex(line, third, 4, kind as u64)
}

// A unit, '-' where there is none.
#[tactic(auto, unfolding(crate::specs::Text::unit_text))]
fn put_unit(line: &mut [u8], at: usize, unit: u32) -> usize
    requires { at + 8 < 2 ^ 64 }
    ensures { Put (unit_text unit) at result line.old line.new }
{
    if unit == NO_UNIT {
        put_text(line, at, b"-")
    } else {
        put_hex(line, at, 8, unit as u64)
    }
}

// 'KEY DEPTH TAG UNIT'
pub fn write_row(line: &mut [u8], at: usize, key: u32, depth: u32, kind: u32, unit: u32) -> usize
    requires { at + line_limit < 2 ^ 64 }
    ensures { Put (row_text key depth kind unit) at result line.old line.new }
{
    let entry_end = put_entry(line, at, key, depth, kind);
    let last = put_text(line, entry_end, b" ");
    let end = put_unit(line, last, unit);
    put_text(line, end, b"\n")
}

// 'refused N at KEY'
pub fn write_refusal(line: &mut [u8], at: usize, number: u32, place: u64) -> usize
    requires { at + line_limit < 2 ^ 64 }
    ensures { Put (refusal_text number place) at result line.old line.new }
{
    let first = put_text(line, at, b"refused ");
    let number_end = put_decimal(line, first, number as u64);
    let second = put_text(line, number_end, b" at ");
    let end = put_hex(line, second, 8, place);
    put_text(line, end, b"\n")
}
