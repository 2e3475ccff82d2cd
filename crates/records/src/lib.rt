// The records of a section: what a row's attributes and children say, or a numbered refusal. It stands for the Rust's `process_structure_member_tag`,
// `process_union_tag`, `process_enumeration_tag`, `process_typedef_tag`, `process_variable_tag`, `process_subroutine_label_tag`, `process_ptr_to_member_tag` and
// `process_overlay_branch`. `taken` says which attributes each takes, `scan` goes over them, `fields` picks what counts, `front` is what comes before the fields;
// then a file for each record, with `elements` for an enumeration's list and `member_words` for what goes into lent room. What it means: the specs of the
// same names.
#![tactic(auto)]

pub mod elements;
pub mod enumeration;
pub mod fields;
pub mod front;
pub mod label;
pub mod member;
pub mod member_words;
pub mod overlay_branch;
pub mod ptr_to_member;
pub mod scan;
pub mod taken;
pub mod typedef;
pub mod unions;
pub mod variable;
