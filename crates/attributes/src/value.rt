// Where a value ends, by its form.
ghost use Rattle.std.specs.Prelude.{◌≡◌, ℕ};
ghost use Rattle.attributes.specs.End.{fixed_end, block_end, text_end, value_end};

use crate::text::zero_from;
use format::form_kind::FormKind;
use numbers::Endian;
use numbers::number::{Number, bytes_there, number_at};

// What could not be read, by its field's first byte: bytes that are not all there (refusal 4), or a number that is not known (6).
#[derive(Clone, Copy)]
pub enum Unread {
    Short(usize),
    Unknown(usize),
}

#[tactic(auto, unfolding(crate::specs::End::fixed_end, numbers::specs::Value::there))]
fn fixed_end(s: &[u8], at: usize, w: usize) -> Result<usize, Unread>
    ensures { result ≡ fixed_end s.now at w }
{
    if bytes_there(s, at, w) {
        Ok(at + w)
    } else {
        Err(Unread::Short(at))
    }
}

// A length that is a number of this type, and as many bytes as it says.
#[tactic(auto, unfolding(crate::specs::End::block_end, numbers::specs::Value::read_at, numbers::specs::Value::there))]
fn block_end<N: Number + Into<u32>>(s: &[u8], at: usize, e: Endian) -> Result<usize, Unread>
    requires counts { (n m : ℕ) → N.converts (N.meaning n) m → m ≡ n }
    ensures { result ≡ block_end e N.WIDTH s.now at }
{
    let n: u32 = number_at::<N>(s, at, e).ok_or(Unread::Short(at))?.into();
    fixed_end(s, at + N::WIDTH, n as usize)
}

#[tactic(auto, unfolding(crate::specs::End::text_end))]
fn text_end(s: &[u8], at: usize) -> Result<usize, Unread>
    ensures { result ≡ text_end s.now at }
{
    let zero = zero_from(s, at);
    if zero < s.len() {
        Ok(zero + 1)
    } else {
        Err(Unread::Short(at))
    }
}

// Where the value at a place ends; e is the data endianness.
#[inline(always)]
#[tactic(auto, unfolding(crate::specs::End::value_end))]
pub fn value_end(s: &[u8], at: usize, form: FormKind, e: Endian) -> Result<usize, Unread>
    ensures { result ≡ value_end form e s.now at }
{
    match form {
        FormKind::Addr => fixed_end(s, at, 4),
        FormKind::Ref => fixed_end(s, at, 4),
        FormKind::Block2 => block_end::<u16>(s, at, e),
        FormKind::Block4 => block_end::<u32>(s, at, e),
        FormKind::Data2 => fixed_end(s, at, 2),
        FormKind::Data4 => fixed_end(s, at, 4),
        FormKind::Data8 => fixed_end(s, at, 8),
        FormKind::String => text_end(s, at),
        FormKind::Undefined => Err(Unread::Short(at)),
    }
}
