// The location atoms, named as in the Rust's `LocationOp`.
ghost use Rattle.std.specs.Prelude.{◌≡◌};
ghost use Rattle.format.specs.LocationOp.{location_op_of};

#[derive(Clone, Copy)]
pub enum LocationOp {
    Register,
    BaseRegister,
    Address,
    Const,
    Deref2,
    Deref4,
    Add,
    MwFpReg,
    MwFpDReg,
    MwDRef8,
    Unknown,
}

// The atom of a byte.
#[tactic(auto, unfolding(crate::specs::Lookup::lookup, crate::specs::LocationOp::location_ops, crate::specs::LocationOp::location_op_of))]
pub fn location_op(n: u8) -> LocationOp
    ensures { result ≡ location_op_of n }
{
    match n {
        0x01 => LocationOp::Register,
        0x02 => LocationOp::BaseRegister,
        0x03 => LocationOp::Address,
        0x04 => LocationOp::Const,
        0x05 => LocationOp::Deref2,
        0x06 => LocationOp::Deref4,
        0x07 => LocationOp::Add,
        0x80 => LocationOp::MwFpReg,
        0x81 => LocationOp::MwFpDReg,
        0x82 => LocationOp::MwDRef8,
        _ => LocationOp::Unknown,
    }
}
