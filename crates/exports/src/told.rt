// What an answer comes to in numbers.
ghost use Rattle.std.specs.Prelude.{◌≡◌};
ghost use Rattle.exports.specs.Inside.Told.{told_as, refused_as};

use format::refusal::{Refusal, number_of};

// Up to three results; 0 where a call has fewer.
#[derive(Clone, Copy)]
pub struct Results {
    pub first: u64,
    pub second: u64,
    pub third: u64,
}

// An answer's number, the place of a refusal (0 where there is none), and what the results then hold.
#[derive(Clone, Copy)]
pub struct Told {
    pub number: u32,
    pub place: u64,
    pub first: u64,
    pub second: u64,
    pub third: u64,
}

// At no place: an answer that was given, or refusal 8.
pub(crate) fn told_as(number: u32, first: u64, second: u64, third: u64) -> Told
    ensures { result ≡ told_as number first second third }
{
    Told {
        number,
        place: 0,
        first,
        second,
        third,
    }
}

// A refusal's number and place; the results hold what they held.
pub(crate) fn refused_as(why: Refusal, held: Results) -> Told
    ensures { result ≡ refused_as why held }
{
    let reason = why.reason;
    Told {
        number: number_of(reason),
        place: why.place,
        first: held.first,
        second: held.second,
        third: held.third,
    }
}
