// Locations: a few shapes of atoms with their operands, the Rust's.
ghost use Rattle.format.specs.Said.{said};
ghost use Rattle.std.specs.Prelude.{◌≡◌, [], ◌∷◌};
ghost use Rattle.format.specs.declared.location_op.LocationOp.TheVariants as op;
ghost use Rattle.blocks.specs.Location.{said_variable_location, made_of, operand_at, is_register, is_register_plus, process_offset};
ghost use Rattle.blocks.specs.Location.{process_address, process_variable_location};

use format::refusal::{Reason, Refusal};
use numbers::Endian;
use numbers::number::number_at;

const REGISTER: u8 = 0x01;

const BASE_REGISTER: u8 = 0x02;

const ADDRESS: u8 = 0x03;

const CONST: u8 = 0x04;

const ADD: u8 = 0x07;

const MW_FP_REG: u8 = 0x80;

// Where a variable is, in place of the Rust's text.
#[derive(Clone, Copy)]
pub enum VariableLocation {
    Register(u32),
    Address(u32),
    RegisterPlus { register: u32, offset: u32 },
}

// A refusal of a block alone, which has no key: its place is 0.
pub(crate) fn refused_block(reason: Reason) -> Refusal
    ensures { result ≡ record { reason = reason; place = 0 } }
{
    Refusal { reason, place: 0 }
}

// The operand that begins at a place, 0 where it is not there.
#[tactic(auto, using(crate::proofs::Laws::Location::operand_read))]
fn operand_at(block: &[u8], at: usize, e: Endian) -> u32
    ensures { result ≡ operand_at e block.now at }
{
    number_at::<u32>(block, at, e).unwrap_or(0)
}

#[tactic(auto, using(crate::proofs::Laws::Location::shapes))]
fn is_address(block: &[u8]) -> bool
    ensures { result ≡ made_of (op.Address ∷ []) block.now 0 }
{
    block.len() == 5 && block[0] == ADDRESS
}

#[tactic(auto, using(crate::proofs::Laws::Location::shapes))]
fn is_offset(block: &[u8]) -> bool
    ensures { result ≡ made_of (op.Const ∷ op.Add ∷ []) block.now 0 }
{
    block.len() == 6 && block[0] == CONST && block[5] == ADD
}

#[tactic(auto, using(crate::proofs::Laws::Location::shapes))]
fn is_register(block: &[u8]) -> bool
    ensures { result ≡ is_register block.now }
{
    block.len() == 5 && matches!(block[0], REGISTER | BASE_REGISTER | MW_FP_REG)
}

#[tactic(auto, using(crate::proofs::Laws::Location::shapes))]
fn is_register_plus(block: &[u8]) -> bool
    ensures { result ≡ is_register_plus block.now }
{
    block.len() == 11 && block[0] == BASE_REGISTER && block[5] == CONST && block[10] == ADD
}

// The offset of a member: CONST n, ADD.
#[tactic(auto, using(crate::proofs::Laws::Steps::steps), unfolding(crate::specs::Location::shape_operand))]
pub fn process_offset(block: &[u8], e: Endian) -> Result<u32, Refusal>
    ensures { said result ≡ process_offset e block.now }
{
    if is_offset(block) {
        Ok(operand_at(block, 1, e))
    } else {
        Err(refused_block(Reason::Block))
    }
}

// The address of a variable: ADDR a.
#[tactic(auto, using(crate::proofs::Laws::Steps::steps), unfolding(crate::specs::Location::shape_operand))]
pub fn process_address(block: &[u8], e: Endian) -> Result<u32, Refusal>
    ensures { said result ≡ process_address e block.now }
{
    if is_address(block) {
        Ok(operand_at(block, 1, e))
    } else {
        Err(refused_block(Reason::Block))
    }
}

// Where a variable is: a register, an address, or a register plus an offset.
#[tactic(auto, unfolding(crate::specs::Location::process_variable_location, crate::specs::Location::said_variable_location))]
pub fn process_variable_location(block: &[u8], e: Endian) -> Result<VariableLocation, Refusal>
    ensures { said_variable_location result ≡ process_variable_location e block.now }
{
    if is_register(block) {
        Ok(VariableLocation::Register(operand_at(block, 1, e)))
    } else if is_address(block) {
        Ok(VariableLocation::Address(operand_at(block, 1, e)))
    } else if is_register_plus(block) {
        Ok(VariableLocation::RegisterPlus {
            register: operand_at(block, 1, e),
            offset: operand_at(block, 6, e),
        })
    } else {
        Err(refused_block(Reason::Block))
    }
}
