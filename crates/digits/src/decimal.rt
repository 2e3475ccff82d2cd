// Decimal fields.
ghost use Rattle.std.specs.Prelude.{◌≡◌};
ghost use Rattle.digits.specs.Digits.{decimal_width, decimal_text};
ghost use Rattle.digits.specs.Put.{Put};

use crate::digit::write_digits;

// How many digits a number has.
#[tactic(auto, using(crate::proofs::Laws::Digits::widths))]
fn decimal_width(v: u64) -> usize
    ensures { result ≡ decimal_width v }
{
    v.checked_ilog10().map_or(1, |d| d as usize + 1)
}

// Writes v with no zeros in front at the beginning of a line's rest, and answers how many bytes the field has.
#[tactic(auto, using(crate::proofs::Laws::Digits::fields))]
pub fn write_decimal(rest: &mut [u8], v: u64) -> usize
    ensures { Put (decimal_text v) 0 result rest.old rest.new }
{
    let w = decimal_width(v);
    write_digits(rest, 10, w, v);
    w
}
