// Links between the rows of a table: attribute lookup, next row, sibling, children. It stands for the Rust's `impl Tag`. Read `lookup` (in a row), `link` (from
// a row to another), `children`, `each_child` and `any_child` (all of a row's, one at a time, whether there is one); `neighbour`, `typed` and `children` have
// the public calls, which take a key. What it means: specs/Links.antt and the files that specs/Lib.antt names.
#![tactic(auto)]

pub mod any_child;
pub mod children;
pub mod each_child;
pub mod link;
pub mod lookup;
pub mod neighbour;
pub mod typed;
