// The program `layouts`: reads a section and prints every structure and class with its members, holes and padding.
//
//     layouts big|little none|mw [FILE]
//
// Standard input is read where no file is named. What it prints is in `report`, a line's holes and padding in `gaps`, settings in `presets`, what `sizes` wrote
// into its rooms in `words`, the rooms in `rooms`, the buffered output in `out`; this file only reads arguments and input. What it means: specs/Gaps.antt,
// specs/Presets.antt, and the specs of `sizes`. A read error counts as the end of input: what was read before it is printed. A write that fails is not told.
#![tactic(auto)]

mod gaps;
mod out;
mod presets;
mod report;
mod rooms;
mod words;

ghost use Rattle.std.specs.Prelude.{◌≤◌, length};

use presets::{Preset, preset_of};
use std::env::FillError;
use std::fs::File;
use std::io::Read;
use std::rt::{Env, Files, Runtime};
use std::{io, str};

fn usage(rt: &impl Eprint) {
    let _ = rt.eprintln("usage: layouts big|little none|mw [FILE]");
}

// Fills a buffer from its start until it is full, the input ends or a read fails. Answers how many bytes were read.
fn read_full<I: Read>(input: &mut I, buffer: &mut [u8]) -> usize
    ensures { result ≤ length buffer.new }
{
    let mut done = 0;
    while done < buffer.len() {
        match input.read(&mut buffer[done..]) {
            Ok(n) if n > 0 => done += n,
            _ => return done,
        }
    }
    done
}

// Is there a byte more?
fn goes_on<I: Read>(input: &mut I) -> bool {
    let mut more = [0u8; 1];
    match input.read(&mut more) {
        Ok(n) => n > 0,
        Err(_) => false,
    }
}

// Is the input longer than the section, which was filled with its first n bytes?
fn is_longer<I: Read>(input: &mut I, n: usize, section: &[u8]) -> bool {
    if n < section.len() {
        false
    } else {
        goes_on(input)
    }
}

// An input that is longer than the section's room is 8 at 0.
fn report_from<I: Read>(rt: &impl Print, input: &mut I, preset: Preset) {
    let mut section = rooms::section_room();
    let n = read_full(input, &mut section);
    if is_longer(input, n, &section) {
        report::report_long(rt);
    } else {
        report::report(rt, &section[..n], preset);
    }
}

// The system's words, without the number that an error has behind them.
fn words_of(text: &str) -> &str {
    match text.rsplit_once(" (os error ") {
        Some((words, _)) => words,
        None => text,
    }
}

// What could not be opened, and why.
fn fail(rt: &(impl Eprint + Alloc), path: &str, error: io::Error) -> io::Result<()> {
    let text = format!(in rt.alloc(); "{error}")?;
    let words = words_of(text.as_str());
    let _ = eprintln!(rt; "{path}: {words}");
    Ok(())
}

// A file that cannot be opened is told on standard error.
fn report_file<R: Files + Print + Eprint + Alloc>(
    rt: &R,
    path: &str,
    preset: Preset,
) -> io::Result<()> {
    match File::open(rt, path) {
        Ok(mut file) => {
            report_from(rt, &mut file, preset);
            Ok(())
        }
        Err(error) => fail(rt, path, error),
    }
}

// With two arguments standard input is read, with three the file that the third names. The system opens no name that is longer than 4,096 bytes, and this program
// none that is not UTF-8.
fn report_named<R: Runtime>(rt: &R, preset: Preset) -> io::Result<()> {
    let mut path = [0u8; 4096];
    match rt.arg(3, &mut path) {
        Ok(n) => match str::from_utf8(&path[..n]) {
            Ok(path) => report_file(rt, path, preset),
            Err(_) => {
                let _ = rt.eprintln("FILE: the name is not UTF-8");
                Ok(())
            }
        },
        Err(FillError::TooLong) => {
            let _ = rt.eprintln("FILE: File name too long");
            Ok(())
        }
        Err(FillError::NotPresent) => {
            report_from(rt, &mut rt.reader(), preset);
            Ok(())
        }
    }
}

// An argument of more than 16 bytes is none of the words.
fn argument_is(rt: &impl Env, i: usize, word: &[u8]) -> bool {
    let mut text = [0u8; 16];
    match rt.arg(i, &mut text) {
        Ok(n) => presets::is_word(&text[..n], word),
        Err(_) => false,
    }
}

// Is there an argument i? The program's name is argument 0.
fn is_given(rt: &impl Env, i: usize) -> bool {
    let mut text = [0u8; 1];
    match rt.arg(i, &mut text) {
        Err(FillError::NotPresent) => false,
        _ => true,
    }
}

fn main(rt: HostRuntime) -> io::Result<()> {
    let big = argument_is(&rt, 1, b"big");
    let little = argument_is(&rt, 1, b"little");
    let none = argument_is(&rt, 2, b"none");
    let mw = argument_is(&rt, 2, b"mw");
    if !is_given(&rt, 2) || is_given(&rt, 4) || big == little || none == mw {
        usage(&rt);
        return Ok(());
    }
    report_named(&rt, preset_of(little, mw))
}
