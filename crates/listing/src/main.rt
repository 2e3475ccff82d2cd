// The listing program: a section from standard input, its listing to standard output. Read `report` (what is printed for an input), `page` (its
// lines), `line`; the crate `digits` writes fields. What it prints: specs/Report.antt and specs/Text.antt.
// A read error counts as the end of input: what was read before it is listed. A write that fails is not told.
#![tactic(auto)]

mod line;
mod page;
mod report;

ghost use Rattle.std.specs.Prelude.{◌≤◌, length};

use std::io::Read;

// Fills a buffer from its start until it is full, the input ends or a read fails. Answers how many bytes were read.
fn read_full<I: Read>(input: &mut I, buffer: &mut [u8]) -> usize
    ensures { result ≤ length buffer.new }
{
    let mut done = 0;
    while done < buffer.len() {
        match input.read(&mut buffer[done..]) {
            Ok(n) if n > 0 => done += n,
            _ => return done,
        }
    }
    done
}

// Is there a byte more?
fn goes_on<I: Read>(input: &mut I) -> bool {
    let mut more = [0u8; 1];
    match input.read(&mut more) {
        Ok(n) => n > 0,
        Err(_) => false,
    }
}

// Is the input longer than the section, which was filled with its first n bytes?
fn is_longer<I: Read>(input: &mut I, n: usize, section: &[u8]) -> bool {
    if n < section.len() {
        false
    } else {
        goes_on(input)
    }
}

fn main(rt: HostRuntime) {
    let mut input = rt.stdin();
    let mut section = [0u8; 65536];
    let n = read_full(&mut input, &mut section);
    let longer = is_longer(&mut input, n, &section);
    let mut page = [0u8; page::PAGE_LIMIT];
    let end = report::report_input(&section[..n], longer, &mut page);
    let _ = rt.write_all(&page[..end]);
}
