// Sizes of types and entries. It stands for the Rust's `Type::size`, `UserDefinedType::size` and `get_udt_by_key`. What it means: specs/Size.antt. `product`
// is an array's, `prepare` what an entry's size takes before any other size is asked for, `stage` a row's size between those it asks for, `size` the pair that
// call each other and the public calls; `noted` sizes that are noted already, `kept` what is kept of each row, `many` sizes for calls that take many of them.
#![tactic(auto)]

pub mod kept;
pub mod many;
pub mod noted;
pub mod prepare;
pub mod product;
pub mod size;
pub mod stage;
