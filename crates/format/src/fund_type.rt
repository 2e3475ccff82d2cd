// The 28 fundamental types, named as in the Rust's `FundType` and in its order, which is that of the settings' sizes.
ghost use Rattle.std.specs.Prelude.{◌≡◌};
ghost use Rattle.format.specs.Lookup.{index_of};
ghost use Rattle.format.specs.FundType.{fund_types, fund_type_of, parse_int};

pub const WIDE_CHAR: u16 = 0x0000;

pub const CHAR: u16 = 0x0001;

pub const SIGNED_CHAR: u16 = 0x0002;

pub const UNSIGNED_CHAR: u16 = 0x0003;

pub const SHORT: u16 = 0x0004;

pub const SIGNED_SHORT: u16 = 0x0005;

pub const UNSIGNED_SHORT: u16 = 0x0006;

pub const INTEGER: u16 = 0x0007;

pub const SIGNED_INTEGER: u16 = 0x0008;

pub const UNSIGNED_INTEGER: u16 = 0x0009;

pub const LONG: u16 = 0x000a;

pub const SIGNED_LONG: u16 = 0x000b;

pub const UNSIGNED_LONG: u16 = 0x000c;

pub const POINTER: u16 = 0x000d;

pub const FLOAT: u16 = 0x000e;

pub const DBL_PREC_FLOAT: u16 = 0x000f;

pub const EXT_PREC_FLOAT: u16 = 0x0010;

pub const COMPLEX: u16 = 0x0011;

pub const DBL_PREC_COMPLEX: u16 = 0x0012;

pub const VOID: u16 = 0x0014;

pub const BOOLEAN: u16 = 0x0015;

pub const EXT_PREC_COMPLEX: u16 = 0x0016;

pub const LABEL: u16 = 0x0017;

pub const LONG_LONG: u16 = 0x8008;

pub const SIGNED_LONG_LONG: u16 = 0x8108;

pub const UNSIGNED_LONG_LONG: u16 = 0x8208;

pub const INT128: u16 = 0xa510;

pub const VEC2X32_FLOAT: u16 = 0xac00;

// The place of a fundamental type in the Rust's order, so of its size among the settings' sizes; 28 for any other number.
#[tactic(auto, unfolding(crate::specs::Lookup::index_of, crate::specs::FundType::fund_types))]
pub fn order_of(n: u16) -> usize
    ensures { result ≡ index_of n fund_types }
{
    match n {
        WIDE_CHAR => 0,
        CHAR => 1,
        SIGNED_CHAR => 2,
        UNSIGNED_CHAR => 3,
        SHORT => 4,
        SIGNED_SHORT => 5,
        UNSIGNED_SHORT => 6,
        INTEGER => 7,
        SIGNED_INTEGER => 8,
        UNSIGNED_INTEGER => 9,
        LONG => 10,
        SIGNED_LONG => 11,
        UNSIGNED_LONG => 12,
        POINTER => 13,
        FLOAT => 14,
        DBL_PREC_FLOAT => 15,
        EXT_PREC_FLOAT => 16,
        COMPLEX => 17,
        DBL_PREC_COMPLEX => 18,
        VOID => 19,
        BOOLEAN => 20,
        EXT_PREC_COMPLEX => 21,
        LABEL => 22,
        LONG_LONG => 23,
        SIGNED_LONG_LONG => 24,
        UNSIGNED_LONG_LONG => 25,
        INT128 => 26,
        VEC2X32_FLOAT => 27,
        _ => 28,
    }
}

// The Rust's `FundType::try_from`: no bits are dropped.
pub fn try_from(n: u16) -> Option<u16>
    ensures { result ≡ fund_type_of n }
{
    if order_of(n) < 28 { Some(n) } else { None }
}

// The Rust's `FundType::parse_int`: of a number whose high byte is 1 only the low byte counts.
pub fn parse_int(value: u16) -> Option<u16>
    ensures { result ≡ parse_int value }
{
    if value / 256 == 1 {
        try_from(value % 256)
    } else {
        try_from(value)
    }
}
