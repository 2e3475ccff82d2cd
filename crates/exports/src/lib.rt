// What a program in Rust or C calls: thin functions over the crates below, nothing else. Numbers, slices (a pointer, then a length) and results through `&mut` cross;
// enums do not. An answer is a number (0 for given, else the refusal's), a place (0 where nothing is refused) and results, each 64 bits wide. Results hold what they
// held where the call refuses, but for the counts that 8 needs; the byte that 4 to 6 tell is always written. `settings` and `told` are what goes in and comes out,
// then a module for each kind of call.
#![tactic(auto)]

pub mod all_layouts;
pub mod block;
pub mod listing;
pub mod one_layout;
pub mod reading;
pub mod settings;
pub mod size;
pub mod told;
