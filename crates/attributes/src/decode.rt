// What a value says, by its form. Strings and blocks come back as that part of the caller's section. A contract says the bytes of a reference that is
// returned, not where it points: beside each such function one with `_at` tells place and length, or that the value is cut, which an empty part alone
// does not show.
ghost use Rattle.std.specs.Prelude.{◌≡◌, ℕ};
ghost use Rattle.attributes.specs.Decode.{address_at, reference_at, data2_at, data4_at, data8_at};
ghost use Rattle.attributes.specs.Parts.{part_at, block_at, text_at, part_lies, block_lies, text_lies};

use crate::text::zero_from;
use numbers::Endian;
use numbers::number::{Number, bytes_there, number_at};

// Addresses and references are in the section's endianness, all else in the entry's own, its data endianness.
#[derive(Clone, Copy)]
pub struct Endians {
    pub section: Endian,
    pub data: Endian,
}

// An address: 4 bytes in section endianness; or they are not all there.
pub fn address(s: &[u8], at: usize, ends: Endians) -> Option<u32>
    ensures { result ≡ address_at ends s.now at }
{
    number_at::<u32>(s, at, ends.section)
}

// A reference, likewise.
pub fn reference(s: &[u8], at: usize, ends: Endians) -> Option<u32>
    ensures { result ≡ reference_at ends s.now at }
{
    number_at::<u32>(s, at, ends.section)
}

// 2 bytes of data, in data endianness.
pub fn data2(s: &[u8], at: usize, ends: Endians) -> Option<u16>
    ensures { result ≡ data2_at ends s.now at }
{
    number_at::<u16>(s, at, ends.data)
}

// 4 bytes of data.
pub fn data4(s: &[u8], at: usize, ends: Endians) -> Option<u32>
    ensures { result ≡ data4_at ends s.now at }
{
    number_at::<u32>(s, at, ends.data)
}

// 8 bytes of data.
pub fn data8(s: &[u8], at: usize, ends: Endians) -> Option<u64>
    ensures { result ≡ data8_at ends s.now at }
{
    number_at::<u64>(s, at, ends.data)
}

// Where a part of a section lies: the place of its first byte, and how many there are.
#[derive(Clone, Copy)]
pub struct Extent {
    pub place: usize,
    pub length: usize,
}

// Where n bytes from a place on lie.
#[tactic(auto, unfolding(crate::specs::Parts::part_lies))]
pub fn part_at(s: &[u8], place: usize, n: usize) -> Option<Extent>
    ensures { result ≡ part_lies s.now place n }
{
    if bytes_there(s, place, n) {
        Some(Extent { place, length: n })
    } else {
        None
    }
}

// Where the bytes of a block lie whose length is a number of this type.
#[tactic(auto, unfolding(crate::specs::Parts::block_lies, numbers::specs::Value::read_at, numbers::specs::Value::there))]
fn block_lying<N: Number + Into<u32>>(s: &[u8], at: usize, ends: Endians) -> Option<Extent>
    requires counts { (n m : ℕ) → N.converts (N.meaning n) m → m ≡ n }
    ensures { result ≡ block_lies ends.«data» N.WIDTH s.now at }
{
    let n: u32 = number_at::<N>(s, at, ends.data)?.into();
    part_at(s, at + N::WIDTH, n as usize)
}

// Where the bytes of a block with a 2-byte length lie.
pub fn block2_at(s: &[u8], at: usize, ends: Endians) -> Option<Extent>
    ensures { result ≡ block_lies ends.«data» 2 s.now at }
{
    block_lying::<u16>(s, at, ends)
}

// The same with a 4-byte length.
pub fn block4_at(s: &[u8], at: usize, ends: Endians) -> Option<Extent>
    ensures { result ≡ block_lies ends.«data» 4 s.now at }
{
    block_lying::<u32>(s, at, ends)
}

// Where the bytes of a text before its zero lie.
#[tactic(auto, unfolding(crate::specs::Parts::text_lies, crate::specs::Text::zero_from))]
pub fn string_at(s: &[u8], at: usize) -> Option<Extent>
    ensures { result ≡ text_lies s.now at }
{
    let end = zero_from(s, at);
    if end < s.len() {
        Some(Extent {
            place: at,
            length: end - at,
        })
    } else {
        None
    }
}

// n bytes from a place on, or nothing where they are not all there.
#[tactic(auto, unfolding(crate::specs::Parts::part_at, numbers::specs::Value::there))]
pub fn part(s: &[u8], from: usize, n: usize) -> &[u8]
    ensures { result.now ≡ part_at s.now from n }
{
    if bytes_there(s, from, n) {
        &s[from..from + n]
    } else {
        &s[..0]
    }
}

// The bytes of a block whose length is a number of this type, or nothing where it is not wholly inside.
#[tactic(auto, unfolding(crate::specs::Parts::block_at, numbers::specs::Value::read_at, numbers::specs::Value::there))]
fn block<N: Number + Into<u32>>(s: &[u8], at: usize, ends: Endians) -> &[u8]
    requires counts { (n m : ℕ) → N.converts (N.meaning n) m → m ≡ n }
    ensures { result.now ≡ block_at ends.«data» N.WIDTH s.now at }
{
    let Some(length) = number_at::<N>(s, at, ends.data) else {
        return &s[..0];
    };
    let n: u32 = length.into();
    part(s, at + N::WIDTH, n as usize)
}

// The bytes of a block with a 2-byte length.
pub fn block2(s: &[u8], at: usize, ends: Endians) -> &[u8]
    ensures { result.now ≡ block_at ends.«data» 2 s.now at }
{
    block::<u16>(s, at, ends)
}

// The same with a 4-byte length.
pub fn block4(s: &[u8], at: usize, ends: Endians) -> &[u8]
    ensures { result.now ≡ block_at ends.«data» 4 s.now at }
{
    block::<u32>(s, at, ends)
}

// The bytes of a text before its zero, or nothing where it has none.
#[tactic(auto, unfolding(crate::specs::Parts::text_at, crate::specs::Text::zero_from))]
pub fn string(s: &[u8], at: usize) -> &[u8]
    ensures { result.now ≡ text_at s.now at }
{
    let zero = zero_from(s, at);
    if zero < s.len() {
        &s[at..zero]
    } else {
        &s[..0]
    }
}
