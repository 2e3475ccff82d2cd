// Reads a section's entries into lent tables: the Rust's `read_tags` and `read_debug_section`. One reader runs twice: on empty tables it counts, on the
// lent ones it fills, so a refusal has written nothing. Read `source` (what is read, and by what), `head` (what an entry begins with), `run` (its
// attributes), `entry`, `walk` (entries one after the other, and inside erased roots), then `section`, the public calls. What it means: the specs of the
// same names.
#![tactic(auto)]

pub mod entry;
pub mod head;
pub mod run;
pub mod section;
pub mod source;
pub mod walk;
