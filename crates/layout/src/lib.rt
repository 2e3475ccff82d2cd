// Layouts of structures and classes, an addition: offset, size and name of each member. What it means: specs/Layout.antt, All.antt. `one` is one layout, `all`
// every layout of a table, `keep` reads each row once for it, `levels` takes the sizes of all rows at a bounded cost.
#![tactic(auto)]

pub mod all;
pub mod keep;
pub mod levels;
pub mod one;
