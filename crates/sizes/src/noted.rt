// Sizes that are noted already: three words for each row. The first is 0 and the second the size; or the first is a refusal's number and the third its place.
ghost use Rattle.std.specs.Prelude.{◌≡◌, ◌+◌, ◌*◌, ◌≤◌, [], ◌∷◌, length, get_or};
ghost use Rattle.std.proofs.lemmas.List.Edits.{sets};
ghost use Rattle.sizes.specs.Inside.Noted.{noted_at, noted_width, PutNoted};
ghost use Rattle.format.specs.Said.{gives, refusal, said};

use format::refusal::{Refusal, number_of, reason_of};
use lent::cells::{get_or, put};

// The words of a size.
pub const KNOWN_WIDTH: usize = 3;

// The size of row i.
#[tactic(auto, unfolding(crate::specs::Inside::Noted::noted_at, format::specs::Said::said))]
pub fn noted_at(noted: &[u64], i: usize) -> Result<u32, Refusal>
    ensures { said result ≡ noted_at noted.now i }
{
    if i >= noted.len() {
        return Ok(0);
    }
    let at = i * KNOWN_WIDTH;
    let number = get_or(noted, at, 0);
    if number == 0 {
        Ok((get_or(noted, at + 1, 0) % 4294967296) as u32)
    } else {
        Err(Refusal {
            reason: reason_of((number % 4294967296) as u32),
            place: get_or(noted, at + 2, 0),
        })
    }
}

// ---- writing them

// The three words of a row.
fn put_three(noted: &mut [u64], at: usize, number: u64, size: u64, place: u64)
    requires { at + 3 ≤ length noted.old }
    ensures { noted.new ≡ sets noted.old at (number ∷ size ∷ place ∷ []) }
{
    put(noted, at, number);
    put(noted, at + 1, size);
    put(noted, at + 2, place);
}

fn put_size(noted: &mut [u64], i: usize, size: u32)
    requires { i * noted_width + noted_width ≤ length noted.old }
    ensures { PutNoted i (gives size) noted.old noted.new }
{
    put_three(noted, i * KNOWN_WIDTH, 0, size as u64, 0);
}

// Row i is refused, as is noted now.
pub fn put_refusal(noted: &mut [u64], i: usize, why: Refusal)
    requires { i * noted_width + noted_width ≤ length noted.old }
    ensures { PutNoted i (refusal why) noted.old noted.new }
{
    let reason = why.reason;
    put_three(
        noted,
        i * KNOWN_WIDTH,
        number_of(reason) as u64,
        0,
        why.place,
    );
}

// Row i's size among the noted ones.
#[tactic(auto, unfolding(format::specs::Said::said))]
pub fn put_noted(noted: &mut [u64], i: usize, size: Result<u32, Refusal>)
    requires { i * noted_width + noted_width ≤ length noted.old }
    ensures { PutNoted i (said size) noted.old noted.new }
{
    match size {
        Ok(size) => put_size(noted, i, size),
        Err(why) => put_refusal(noted, i, why),
    }
}
