// The tree listing: depth and parent of every row. It has no counterpart in the Rust. Read `reach` (where a row's reach ends), `fault` (the first row at
// fault), `pass` (depth and parent, with the open rows on a stack), then `listing`, the public call. What it means: specs/Nest.antt and specs/Tree.antt.
#![tactic(auto)]

pub mod fault;
pub mod listing;
pub mod pass;
pub mod reach;
