// Bytes of a structure that no member has: holes between members, padding at the end. Members are taken in walk order, and what they have reached is the largest end
// so far, so that members that lie on each other leave no hole. Where another child may take bytes, as a base does, nothing is called a hole or padding.
ghost use Rattle.std.specs.Prelude.{◌≡◌};
ghost use Rattle.format.specs.Lookup.{is_on};
ghost use Rattle.layouts.specs.Gaps.{gap_between, reach_with, byteless, stretch_of};

use format::lookup::on_list;
use format::tag_kind::{
    ARRAY_TYPE, CLASS_TYPE, ENUMERATION_TYPE, GLOBAL_SUBROUTINE, GLOBAL_VARIABLE, MEMBER,
    POINTER_TYPE, PTR_TO_MEMBER_TYPE, REFERENCE_TYPE, STRUCTURE_TYPE, SUBROUTINE, SUBROUTINE_TYPE,
    TYPEDEF, UNION_TYPE,
};

#[derive(Clone, Copy)]
pub struct Gap {
    pub at: u64,
    pub bytes: u64,
}

// What lies between what was reached and a place.
#[tactic(auto, unfolding(crate::specs::Gaps::gap_between))]
pub fn gap_between(reached: u64, place: u32) -> Option<Gap>
    ensures { result ≡ gap_between reached place }
{
    if reached < place as u64 {
        let bytes = place as u64 - reached;
        Some(Gap { at: reached, bytes })
    } else {
        None
    }
}

// What is reached with one more member.
#[tactic(auto, unfolding(crate::specs::Gaps::reach_with))]
pub fn reach_with(reached: u64, offset: u32, size: u32) -> u64
    ensures { result ≡ reach_with reached offset size }
{
    let end = offset as u64 + size as u64;
    if reached < end { end } else { reached }
}

// What a stretch without members is called.
#[derive(Clone, Copy)]
pub enum Stretch {
    Hole,
    Padding,
    // A base, or another child that is no member, may lie there.
    Bare,
}

// By whether other children may take bytes, and whether it is the one behind the last member.
#[tactic(auto, unfolding(crate::specs::Gaps::stretch_of))]
pub fn stretch_of(others: bool, last: bool) -> Stretch
    ensures { result ≡ stretch_of others last }
{
    if others {
        return Stretch::Bare;
    }
    if last {
        Stretch::Padding
    } else {
        Stretch::Hole
    }
}

const BYTELESS: [u16; 14] = [
    MEMBER,
    ARRAY_TYPE,
    CLASS_TYPE,
    ENUMERATION_TYPE,
    POINTER_TYPE,
    REFERENCE_TYPE,
    STRUCTURE_TYPE,
    SUBROUTINE_TYPE,
    TYPEDEF,
    UNION_TYPE,
    PTR_TO_MEMBER_TYPE,
    GLOBAL_SUBROUTINE,
    SUBROUTINE,
    GLOBAL_VARIABLE,
];

// A child of this kind takes no bytes of its structure but those that members tell.
pub fn is_byteless(kind: u16) -> bool
    ensures { result ≡ is_on kind byteless }
{
    on_list(&BYTELESS, kind)
}
