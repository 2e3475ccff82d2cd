// Runs some of document 01's examples through the code (the table of the starred ones is in specs/) and some refusals, then each file of cases that an argument
// names, `-` being standard input: what was compared, and every difference. CASES.md says what a case is. Read `document` (the examples), `refusals`, `stream`
// (packets of a file), `questions` (what a packet asks), then the files that ask: `alone` (of a block), `values` (a section's rows), `relations`, `single`,
// `unions`, `layouts` and `enumerations` (by key), over `fields`, `settings`, `cursor` (the expected words against ours) and `tally` (the counts).
#![tactic(auto)]

mod alone;
mod cursor;
mod document;
mod enumerations;
mod fields;
mod layouts;
mod questions;
mod refusals;
mod relations;
mod settings;
mod single;
mod stream;
mod tally;
mod unions;
mod values;

use numbers::prefix::starts_with;
use std::env::FillError;
use std::fs::File;
use std::io::{Input, Read};
use std::rt::{Env, Files};
use std::str;
use tally::{report, text};

fn is_stdin(name: &[u8]) -> bool {
    starts_with(name, b"-") & (name.len() == 1)
}

// Nothing where it cannot be opened, as where its name is not UTF-8.
fn opened<R: Files>(rt: &R, name: &[u8]) -> Option<R::File> {
    let path = str::from_utf8(name).ok()?;
    File::open(rt, path).ok()
}

// The cases that can be read from an input.
fn run_input<I: Read>(rt: &impl Print, input: &mut I, packet: &mut [u8; 1048576]) {
    let mut t = [0u64; 128];
    stream::run(rt, input, packet, &mut t);
    report(rt, &t);
}

// The cases of one file.
fn run_file<R: Files + Input + Print>(rt: &R, name: &[u8], packet: &mut [u8; 1048576]) {
    text(rt, name);
    text(rt, b"\n");
    if is_stdin(name) {
        run_input(rt, &mut rt.reader(), packet);
        return;
    }
    match opened(rt, name) {
        Some(mut file) => run_input(rt, &mut file, packet),
        None => text(rt, b"bad case file: it cannot be opened\n"),
    }
}

// Answers whether there is such an argument. A name that is longer than the system opens is told as an empty one.
fn run_argument<R: Env + Files + Input + Print>(
    rt: &R,
    i: usize,
    packet: &mut [u8; 1048576],
) -> bool {
    let mut name = [0u8; 4096];
    match rt.arg(i, &mut name) {
        Ok(length) => run_file(rt, &name[..length], packet),
        Err(FillError::TooLong) => run_file(rt, b"", packet),
        Err(FillError::NotPresent) => return false,
    }
    true
}

fn run_arguments<R: Env + Files + Input + Print>(rt: &R, packet: &mut [u8; 1048576]) {
    for i in 1..usize::MAX {
        if !run_argument(rt, i, packet) {
            return;
        }
    }
}

fn main(rt: HostRuntime) {
    document::run(&rt);
    refusals::run(&rt);
    let mut packet = [0u8; 1048576];
    run_arguments(&rt, &mut packet);
}
