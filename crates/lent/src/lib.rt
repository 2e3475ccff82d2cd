// Memory that a caller lends, one element at a place that may lie past the end: there it reads as what the caller names and is not stored. So one reader can
// count on empty room and fill lent room, and a refusal has written nothing. Tables are of cells (32 bits), rooms of words (64 bits), values (signed, 32 bits)
// or bytes: one function serves them all.
#![tactic(auto)]

pub mod cells;
