// A number's digits in a base.
ghost use Rattle.std.specs.Prelude.{◌≡◌, ◌≤◌, ◌<◌};
ghost use Rattle.std.proofs.lemmas.List.Edits.{sets};
ghost use Rattle.digits.specs.Digits.{digits};
ghost use Rattle.digits.specs.Digits.{glyph as Digits·glyph};

use lent::cells::put;

// The letter of a digit.
#[tactic(auto, unfolding(crate::specs::Digits::glyph))]
fn glyph(d: u64) -> u8
    requires { d < 16 }
    ensures { result ≡ Digits·glyph d }
{
    if d < 10 { 48 + d as u8 } else { 87 + d as u8 }
}

// Writes the last w digits of v at the beginning of a line's rest, from the last to the first.
#[tactic(auto, using(crate::proofs::Laws::Digits::by_digit))]
pub(crate) fn write_digits(rest: &mut [u8], base: u64, w: usize, v: u64)
    requires { (0 < base) × (base ≤ 16) }
    ensures { rest.new ≡ sets rest.old 0 (digits base w v) }
{
    let mut left = v;
    for i in (0..w).rev() {
        put(rest, i, glyph(left % base));
        left = left / base;
    }
}
