// What an entry begins with: rules 1 to 3 of document 01's 'Reading entries'.
ghost use Rattle.std.specs.Prelude.{◌≡◌, ◌+◌, ◌^◌, ◌≤◌, ◌<◌, length};
ghost use Rattle.entries.specs.Head.{null_end, tag_head, size_head, head_at};
ghost use Rattle.entries.specs.Inside.Promise.{HeadRead};

use format::refusal::Reason;
use format::tag_kind::{PADDING, is_tag};
use numbers::Endian;
use numbers::number::number_at;

#[derive(Clone, Copy)]
pub enum Head {
    // A null entry, and padding that is stepped over: where the next entry begins.
    Null(usize),
    Skipped(usize),
    // An erased root, and an ordinary entry of some kind: where it ends.
    Root(usize),
    Ordinary { kind: u16, end: usize },
}

// Why an entry's head was not read: its size or its tag is not all there, or its tag is not known; and the first byte of that field.
#[derive(Clone, Copy)]
pub struct HeadError {
    pub why: Reason,
    pub byte: usize,
}

#[tactic(auto, unfolding(crate::specs::Head::null_end))]
fn null_end(at: usize, size: u32) -> usize
    requires { at < 2 ^ 63 }
    ensures { result ≡ null_end at size }
{
    if size <= 4 {
        at + 4
    } else {
        at + size as usize
    }
}

#[tactic(auto, unfolding(crate::specs::Head::tag_head))]
fn tag_head(erased: bool, end: usize, place: usize, kind: u16) -> Result<Head, HeadError>
    ensures { result ≡ tag_head erased end place kind }
{
    if !is_tag(kind) {
        return Err(HeadError {
            why: Reason::Tag,
            byte: place,
        });
    }
    if kind == PADDING {
        if erased {
            Ok(Head::Root(end))
        } else {
            Ok(Head::Skipped(end))
        }
    } else {
        Ok(Head::Ordinary { kind, end })
    }
}

fn size_head(erased: bool, s: &[u8], e: Endian, at: usize, size: u32) -> Result<Head, HeadError>
    requires { at + 4 ≤ length s.now }
    ensures { HeadRead s.now at (size_head erased s.now e at size) result }
{
    if size < 8 {
        return Ok(Head::Null(null_end(at, size)));
    }
    let tag_at = at + 4;
    let kind = number_at::<u16>(s, tag_at, e).ok_or(HeadError {
        why: Reason::Short,
        byte: tag_at,
    })?;
    tag_head(erased, at + size as usize, tag_at, kind)
}

// The head of the entry at a place.
pub(crate) fn head_at(erased: bool, s: &[u8], e: Endian, at: usize) -> Result<Head, HeadError>
    ensures { HeadRead s.now at (head_at erased s.now e at) result }
{
    let size = number_at::<u32>(s, at, e).ok_or(HeadError {
        why: Reason::Short,
        byte: at,
    })?;
    size_head(erased, s, e, at, size)
}
