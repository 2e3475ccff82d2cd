// The format's numbers, the limits, the refusals, and the settings with their test. It stands for the Rust's enums; limits, refusals
// and settings are additions of document 01. Each number is a definition of specs/ and a constant or a function here, proved equal.
#![tactic(auto)]

pub mod attribute_kind;
pub mod form_kind;
pub mod fund_type;
pub mod limits;
pub mod location_op;
pub mod lookup;
pub mod modifier;
pub mod presets;
pub mod refusal;
pub mod settings;
pub mod subscript_format;
pub mod tag_kind;
