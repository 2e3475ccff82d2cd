// Integers at a place of a byte slice, in either endianness, and a text's first bytes against fixed ones: what the Rust takes from its
// `util::reader`. Every public function answers on every slice and at every place. The meaning stands in specs/Value.antt and specs/Prefix.antt.
#![tactic(auto)]

pub mod number;
pub mod prefix;

// Which of a number's bytes comes first: the one that counts most, or the one that counts least.
#[derive(Clone, Copy)]
pub enum Endian {
    Big,
    Little,
}
