// Hexadecimal fields.
ghost use Rattle.digits.specs.Digits.{hex_text};
ghost use Rattle.digits.specs.Put.{Put};

use crate::digit::write_digits;

// Writes v in w digits at the beginning of a line's rest, and answers how many bytes the field has.
#[tactic(auto, using(crate::proofs::Laws::Digits::fields))]
pub fn write_hex(rest: &mut [u8], w: usize, v: u64) -> usize
    ensures { Put (hex_text w v) 0 result rest.old rest.new }
{
    write_digits(rest, 16, w, v);
    w
}
