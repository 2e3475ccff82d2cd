// Integers of 1, 2, 4 and 8 bytes at a place, unsigned or in two's complement: one reading for all of them.
#![tactic(auto, unfolding(crate::specs::Value::value_of, crate::specs::Value::signed_of, crate::specs::Value::signed_below))]

ghost use Rattle.std.specs.Prelude.{◌≡◌, ℕ, ◌+◌, ◌≤◌, length, Some, None};
ghost use Rattle.numbers.specs.Value.{value_of, signed_of, there, read_at};

use crate::Endian;

// A type of numbers, each of which has so many bytes.
pub trait Number: Copy {
    const WIDTH: usize;

    ghost WIDTH: { ℕ };

    // What the number says that the bytes make up.
    ghost meaning: { ℕ → Self };

    // The number whose first byte stands at a place.
    fn made_of(s: &[u8], at: usize, e: Endian) -> Self
        requires { at + WIDTH ≤ length s.now }
        ensures { result ≡ meaning (value_of e WIDTH s.now at) };
}

impl Number for u8 {
    const WIDTH: usize = 1;

    ghost WIDTH = { 1 };

    ghost meaning = { λ n. n };

    fn made_of(s: &[u8], at: usize, _: Endian) -> u8 {
        s[at]
    }
}

impl Number for u16 {
    const WIDTH: usize = 2;

    ghost WIDTH = { 2 };

    ghost meaning = { λ n. n };

    fn made_of(s: &[u8], at: usize, e: Endian) -> u16 {
        let bytes = [s[at], s[at + 1]];
        match e {
            Endian::Big => u16::from_be_bytes(bytes),
            Endian::Little => u16::from_le_bytes(bytes),
        }
    }
}

impl Number for u32 {
    const WIDTH: usize = 4;

    ghost WIDTH = { 4 };

    ghost meaning = { λ n. n };

    fn made_of(s: &[u8], at: usize, e: Endian) -> u32 {
        let bytes = [s[at], s[at + 1], s[at + 2], s[at + 3]];
        match e {
            Endian::Big => u32::from_be_bytes(bytes),
            Endian::Little => u32::from_le_bytes(bytes),
        }
    }
}

impl Number for u64 {
    const WIDTH: usize = 8;

    ghost WIDTH = { 8 };

    ghost meaning = { λ n. n };

    fn made_of(s: &[u8], at: usize, e: Endian) -> u64 {
        let bytes = [
            s[at],
            s[at + 1],
            s[at + 2],
            s[at + 3],
            s[at + 4],
            s[at + 5],
            s[at + 6],
            s[at + 7],
        ];
        match e {
            Endian::Big => u64::from_be_bytes(bytes),
            Endian::Little => u64::from_le_bytes(bytes),
        }
    }
}

impl Number for i8 {
    const WIDTH: usize = u8::WIDTH;

    ghost WIDTH = { 1 };

    ghost meaning = { signed_of 1 };

    fn made_of(s: &[u8], at: usize, e: Endian) -> i8 {
        u8::made_of(s, at, e).cast_signed()
    }
}

impl Number for i16 {
    const WIDTH: usize = u16::WIDTH;

    ghost WIDTH = { 2 };

    ghost meaning = { signed_of 2 };

    fn made_of(s: &[u8], at: usize, e: Endian) -> i16 {
        u16::made_of(s, at, e).cast_signed()
    }
}

impl Number for i32 {
    const WIDTH: usize = u32::WIDTH;

    ghost WIDTH = { 4 };

    ghost meaning = { signed_of 4 };

    fn made_of(s: &[u8], at: usize, e: Endian) -> i32 {
        u32::made_of(s, at, e).cast_signed()
    }
}

// Are w bytes there from `at` on?
#[tactic(auto, unfolding(crate::specs::Value::there))]
pub fn bytes_there(s: &[u8], at: usize, w: usize) -> bool
    ensures { result ≡ there s.now at w }
{
    if s.len() < at {
        return false;
    }
    w <= s.len() - at
}

// The number at a place, in an endianness; or its bytes are not all there.
#[tactic(auto, unfolding(crate::specs::Value::there, crate::specs::Value::read_at))]
pub fn number_at<N: Number>(s: &[u8], at: usize, e: Endian) -> Option<N>
    ensures { result ≡ read_at (λ n. Some (N.meaning n)) None e N.WIDTH s.now at }
{
    if bytes_there(s, at, N::WIDTH) {
        Some(N::made_of(s, at, e))
    } else {
        None
    }
}
