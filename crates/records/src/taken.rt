// The records, and which attributes each takes: lists to hold against the Rust's functions, named above them.
ghost use Rattle.std.specs.Prelude.{◌≡◌};
ghost use Rattle.format.specs.Lookup.{is_on};
ghost use Rattle.format.specs.Settings.{plays};
ghost use Rattle.records.specs.Taken.{taken_by, role_taken, takes, special};

use format::attribute_kind::{
    BIT_OFFSET, BIT_SIZE, BYTE_SIZE, CONTAINING_TYPE, ELEMENT_LIST, FUND_TYPE, HIGH_PC, LOCATION,
    LOW_PC, MEMBER, MOD_FUND_TYPE, MOD_UD_TYPE, NAME, PRIVATE, PROTECTED, PUBLIC, SIBLING,
    SPECIFICATION, USER_DEF_TYPE,
};
use format::lookup::on_list;
use format::settings::Roles;

#[derive(Clone, Copy)]
pub enum Record {
    Member,
    Union,
    Enumeration,
    Typedef,
    Variable,
    Label,
    PtrToMember,
    OverlayBranch,
}

// `process_union_tag`
const UNION_TAKES: [u16; 4] = [SIBLING, NAME, BYTE_SIZE, MEMBER];

// `process_enumeration_tag`
const ENUMERATION_TAKES: [u16; 5] = [SIBLING, NAME, BYTE_SIZE, ELEMENT_LIST, MEMBER];

// `process_typedef_tag`
const TYPEDEF_TAKES: [u16; 8] = [
    SIBLING,
    NAME,
    FUND_TYPE,
    MOD_FUND_TYPE,
    USER_DEF_TYPE,
    MOD_UD_TYPE,
    MEMBER,
    SPECIFICATION,
];

// `process_variable_tag`
const VARIABLE_TAKES: [u16; 8] = [
    SIBLING,
    NAME,
    FUND_TYPE,
    MOD_FUND_TYPE,
    USER_DEF_TYPE,
    MOD_UD_TYPE,
    LOCATION,
    MEMBER,
];

// `process_subroutine_label_tag`
const LABEL_TAKES: [u16; 3] = [SIBLING, NAME, LOW_PC];

// `process_ptr_to_member_tag`
const PTR_TO_MEMBER_TAKES: [u16; 6] = [
    SIBLING,
    FUND_TYPE,
    MOD_FUND_TYPE,
    USER_DEF_TYPE,
    MOD_UD_TYPE,
    CONTAINING_TYPE,
];

// `process_overlay_branch`
const OVERLAY_BRANCH_TAKES: [u16; 5] = [SIBLING, MEMBER, LOW_PC, HIGH_PC, NAME];

// `process_structure_member_tag`. Members are most of what is read, so theirs is no list to go through.
#[tactic(auto, unfolding(crate::specs::Taken::taken_by, format::specs::Lookup::is_on))]
fn member_takes(number: u16) -> bool
    ensures { result ≡ is_on number (taken_by Record.Member) }
{
    matches!(
        number,
        SIBLING
            | NAME
            | FUND_TYPE
            | MOD_FUND_TYPE
            | USER_DEF_TYPE
            | MOD_UD_TYPE
            | LOCATION
            | BYTE_SIZE
            | BIT_SIZE
            | BIT_OFFSET
            | PRIVATE
            | PROTECTED
            | PUBLIC
            | MEMBER
    )
}

#[tactic(auto, unfolding(crate::specs::Taken::taken_by))]
fn is_taken(which: Record, number: u16) -> bool
    ensures { result ≡ is_on number (taken_by which) }
{
    match which {
        Record::Member => member_takes(number),
        Record::Union => on_list(&UNION_TAKES, number),
        Record::Enumeration => on_list(&ENUMERATION_TAKES, number),
        Record::Typedef => on_list(&TYPEDEF_TAKES, number),
        Record::Variable => on_list(&VARIABLE_TAKES, number),
        Record::Label => on_list(&LABEL_TAKES, number),
        Record::PtrToMember => on_list(&PTR_TO_MEMBER_TAKES, number),
        Record::OverlayBranch => on_list(&OVERLAY_BRANCH_TAKES, number),
    }
}

// Does an attribute of this number play a role? A role that is absent is played by none.
#[tactic(auto, unfolding(format::specs::Settings::plays))]
fn plays(role: u16, number: u16) -> bool
    ensures { result ≡ plays role number }
{
    role != 0 && number == role
}

// The vendor attributes that a record takes.
#[tactic(auto, unfolding(crate::specs::Taken::role_taken))]
fn role_taken(roles: Roles, which: Record, number: u16) -> bool
    ensures { result ≡ role_taken roles which number }
{
    match which {
        Record::Variable => plays(roles.mangled, number),
        Record::OverlayBranch => {
            plays(roles.overlay_name, number) || plays(roles.overlay_id, number)
        }
        _ => false,
    }
}

#[tactic(auto, unfolding(crate::specs::Taken::takes))]
pub(crate) fn takes(roles: Roles, which: Record, number: u16) -> bool
    ensures { result ≡ takes roles which number }
{
    is_taken(which, number) || role_taken(roles, which, number)
}

// Attributes that the record reads itself: the scan stops at them.
#[tactic(auto, unfolding(crate::specs::Taken::special))]
pub(crate) fn is_special(which: Record, number: u16) -> bool
    ensures { result ≡ special which number }
{
    match which {
        Record::Enumeration => number == ELEMENT_LIST,
        Record::Typedef => number == SPECIFICATION,
        _ => false,
    }
}
