// What stands at an attribute's place: the Rust's `read_attribute`.
ghost use Rattle.std.specs.Prelude.{◌≡◌, ◌+◌, ◌≤◌, length};
ghost use Rattle.attributes.specs.Read.{numbered, read_attribute};
ghost use Rattle.attributes.specs.Inside.Read.{known_end, end_told};

use crate::value::{Unread, value_end};
use format::attribute_kind::is_known;
use format::form_kind::form_of;
use numbers::Endian;
use numbers::number::number_at;

#[derive(Clone, Copy)]
pub struct Attribute {
    pub number: u16,
    pub value: usize,
    pub next: usize,
}

// The end of the value at a place, of the attribute number n, where the number is known and the value is all there. Reading and the table test both ask here,
// of every attribute: an answer of two words goes in registers, one that tells why not through memory (docs/DESIGN.md, Speed).
#[inline(never)]
#[tactic(auto, unfolding(crate::specs::Inside::Read::known_end, crate::specs::Inside::Read::end_told))]
pub fn end_if_known(s: &[u8], value: usize, n: u16, e: Endian, vendors: &[u16]) -> Option<usize>
    ensures { result ≡ end_told (known_end vendors.now e s.now value n) }
{
    if is_known(n, vendors) {
        match value_end(s, value, form_of(n), e) {
            Ok(next) => Some(next),
            Err(_) => None,
        }
    } else {
        None
    }
}

// Why it is not.
#[cold]
#[inline(never)]
#[tactic(auto, unfolding(crate::specs::Inside::Read::known_end))]
fn end_or_why(s: &[u8], value: usize, n: u16, e: Endian, vendors: &[u16]) -> Result<usize, Unread>
    ensures { result ≡ known_end vendors.now e s.now value n }
{
    if is_known(n, vendors) {
        value_end(s, value, form_of(n), e)
    } else {
        Err(Unread::Unknown(value))
    }
}

// The end of the value at a place, of the attribute number n; or why there is none.
pub fn known_end(
    s: &[u8],
    value: usize,
    n: u16,
    e: Endian,
    vendors: &[u16],
) -> Result<usize, Unread>
    ensures { result ≡ known_end vendors.now e s.now value n }
{
    match end_if_known(s, value, n, e, vendors) {
        Some(next) => Ok(next),
        None => end_or_why(s, value, n, e, vendors),
    }
}

fn numbered_at(s: &[u8], at: usize, n: u16, e: Endian, vendors: &[u16]) -> Result<Attribute, Unread>
    requires { at + 2 ≤ length s.now }
    ensures { result ≡ numbered vendors.now e s.now at n }
{
    let value = at + 2;
    match known_end(s, value, n, e, vendors) {
        Ok(next) => Ok(Attribute {
            number: n,
            value,
            next,
        }),
        Err(Unread::Short(field)) => Err(Unread::Short(field)),
        Err(Unread::Unknown(place)) => Err(Unread::Unknown(place - 2)),
    }
}

// The attribute at a place; e is the data endianness.
#[tactic(auto, unfolding(crate::specs::Read::read_attribute, numbers::specs::Value::read_at, numbers::specs::Value::there))]
pub fn read_attribute(s: &[u8], at: usize, e: Endian, vendors: &[u16]) -> Result<Attribute, Unread>
    ensures { result ≡ read_attribute vendors.now e s.now at }
{
    let n = number_at::<u16>(s, at, e).ok_or(Unread::Short(at))?;
    numbered_at(s, at, n, e, vendors)
}
