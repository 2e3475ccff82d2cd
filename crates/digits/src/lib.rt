// Numbers as words for people: hexadecimal and decimal fields, and fixed words, each written at the beginning of a line's rest. What they are:
// specs/Digits.antt and specs/Put.antt.
#![tactic(auto)]

pub mod decimal;
mod digit;
pub mod hex;
pub mod text;
