// What the blocks of a section say: locations, modifiers, types, subscripts; and who produced it. It stands for the Rust's `process_offset`,
// `process_address`, `process_variable_location`, `process_modifiers`, `process_type`, `process_array_subscript_data` and `parse_producer`. Every function
// takes any bytes; a refusal's place is 0, since a block alone has no key: who knows the row puts its key there. What it means: the specs of the same names.
#![tactic(auto)]

pub mod location;
pub mod modifiers;
pub mod producer;
pub mod subscript;
pub mod subscripts;
pub mod types;
