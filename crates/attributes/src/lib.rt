// Attributes of an entry: where a value ends, what stands at an attribute's place, and what a value says. It stands for the Rust's
// `read_attribute` and `read_string`. Nothing is copied: an attribute is its number and the place of its value. Read `text` (where a text
// ends), `value` (where a value ends), `read`, then `decode`. What it means: specs/Text.antt, End.antt, Read.antt, Decode.antt, Parts.antt.
#![tactic(auto)]

pub mod decode;
pub mod read;
pub mod text;
pub mod value;
