// Types: what the four type attributes say.
ghost use Rattle.format.specs.Said.{said};
ghost use Rattle.std.specs.Prelude.{◌≡◌};
ghost use Rattle.attributes.specs.Parts.{part_at};
ghost use Rattle.blocks.specs.Types.{modified, fundamental, fund_type, mod_fund_type, user_def_type, mod_ud_type, process_type};

use crate::location::refused_block;
use crate::modifiers::process_modifiers;
use attributes::decode::{Endians, block2, data2, part, reference};
use format::fund_type::parse_int;
use format::refusal::{Reason, Refusal};
use numbers::Endian;
use numbers::number::number_at;

// A fundamental type, or the key of the entry that defines the type.
#[derive(Clone, Copy)]
pub enum TypeKind {
    Fundamental(u16),
    UserDefined(u32),
}

// A type: its modifiers are `count` bytes from `place` on, outermost first; does a pointer or a reference stand among them?
#[derive(Clone, Copy)]
pub struct Type {
    pub kind: TypeKind,
    pub place: usize,
    pub count: usize,
    pub pointer: bool,
}

// A type with its modifiers, which stand from `place` on.
#[tactic(auto, using(crate::proofs::Laws::Steps::steps), unfolding(crate::specs::Types::modified))]
fn modified(place: usize, modifiers: &[u8], kind: TypeKind) -> Result<Type, Refusal>
    ensures { said result ≡ modified place modifiers.now kind }
{
    let pointer = process_modifiers(modifiers)?;
    Ok(Type {
        kind,
        place,
        count: modifiers.len(),
        pointer,
    })
}

// A fundamental type's number comes before the modifiers in the order of faults.
#[tactic(auto, using(crate::proofs::Laws::Steps::steps), unfolding(crate::specs::Types::fundamental))]
fn fundamental(place: usize, modifiers: &[u8], number: u16) -> Result<Type, Refusal>
    ensures { said result ≡ fundamental place modifiers.now number }
{
    let known = parse_int(number).ok_or(refused_block(Reason::Number))?;
    modified(place, modifiers, TypeKind::Fundamental(known))
}

// FundType: two bytes of data.
#[tactic(auto, using(crate::proofs::Laws::Steps::steps), unfolding(crate::specs::Types::fund_type))]
fn fund_type(s: &[u8], at: usize, ends: Endians) -> Result<Type, Refusal>
    ensures { said result ≡ fund_type ends s.now at }
{
    let number = data2(s, at, ends).ok_or(refused_block(Reason::Block))?;
    fundamental(at, &[], number)
}

// UserDefType: a reference.
#[tactic(auto, using(crate::proofs::Laws::Steps::steps), unfolding(crate::specs::Types::user_def_type))]
fn user_def_type(s: &[u8], at: usize, ends: Endians) -> Result<Type, Refusal>
    ensures { said result ≡ user_def_type ends s.now at }
{
    let key = reference(s, at, ends).ok_or(refused_block(Reason::Block))?;
    modified(at, &[], TypeKind::UserDefined(key))
}

// ModFundType's block: modifiers, then two bytes of fundamental type.
#[tactic(auto, using(crate::proofs::Laws::Types::last), unfolding(crate::specs::Types::mod_fund_type))]
fn mod_fund_type(block: &[u8], place: usize, e: Endian) -> Result<Type, Refusal>
    ensures { said result ≡ mod_fund_type e place block.now }
{
    if block.len() < 2 {
        return Err(refused_block(Reason::Block));
    }
    let count = block.len() - 2;
    let number = number_at::<u16>(block, count, e).ok_or(refused_block(Reason::Block))?;
    fundamental(place, &block[..count], number)
}

// ModUDType's block: modifiers, then four bytes of reference.
#[tactic(auto, using(crate::proofs::Laws::Types::last), unfolding(crate::specs::Types::mod_ud_type))]
fn mod_u_d_type(block: &[u8], place: usize, e: Endian) -> Result<Type, Refusal>
    ensures { said result ≡ mod_ud_type e place block.now }
{
    if block.len() < 4 {
        return Err(refused_block(Reason::Block));
    }
    let count = block.len() - 4;
    let key = number_at::<u32>(block, count, e).ok_or(refused_block(Reason::Block))?;
    modified(place, &block[..count], TypeKind::UserDefined(key))
}

// The type that an attribute of this number, with its value at a place, says. An attribute that is no type attribute is 17, as is a place
// past the end, where no byte stands; before it `at + 2` is a number still.
#[tactic(auto, unfolding(crate::specs::Types::process_type, format::specs::Said::said))]
pub fn process_type(s: &[u8], number: u16, at: usize, ends: Endians) -> Result<Type, Refusal>
    ensures { said result ≡ process_type ends s.now number at }
{
    if s.len() < at {
        return Err(refused_block(Reason::Block));
    }
    match number {
        0x55 => fund_type(s, at, ends),
        0x63 => mod_fund_type(block2(s, at, ends), at + 2, ends.section),
        0x72 => user_def_type(s, at, ends),
        0x83 => mod_u_d_type(block2(s, at, ends), at + 2, ends.section),
        _ => Err(refused_block(Reason::Block)),
    }
}

// The modifier bytes of a type, as that part of what it was read from.
pub fn modifiers_of(s: &[u8], of: Type) -> &[u8]
    ensures { result.now ≡ part_at s.now of.place of.count }
{
    part(s, of.place, of.count)
}
