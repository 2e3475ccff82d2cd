// Rows and attributes in lent words: the only crate that knows the words. It stands for the Rust's `Tag` and `TagMap`. A table is two lent slices,
// one of rows and one of attributes, and their counts beside them. Read `row` and `store` (a row, an attribute), `table` (a table and what it was read
// with), `unit` (which unit a row belongs to), `holds` (what makes a table one that can be read), `find` (the row of a key), `tests` (those that every
// public call makes first), `keyed` (the row of a key after them). What it means: specs/Row.antt, Unit.antt, Table.antt, Holds.antt, Find.antt,
// Tests.antt, Keyed.antt.
#![tactic(auto)]

pub mod find;
pub mod holds;
pub mod keyed;
pub mod row;
pub mod store;
pub mod table;
pub mod tests;
pub mod unit;
