// The 57 attribute numbers that document 01 names, and whether a number is known. This is asked of every attribute that is read.
ghost use Rattle.std.specs.Prelude.{◌≡◌};
ghost use Rattle.format.specs.Lookup.{is_on, lookup};
ghost use Rattle.format.specs.AttributeKind.{attribute_kinds};
ghost use Rattle.format.specs.Known.{known};
ghost use Rattle.format.specs.Inside.NamedWords.{named_words};

use crate::lookup::on_list;

pub const SIBLING: u16 = 0x0012;

pub const LOCATION: u16 = 0x0023;

pub const NAME: u16 = 0x0038;

pub const FUND_TYPE: u16 = 0x0055;

pub const MOD_FUND_TYPE: u16 = 0x0063;

pub const USER_DEF_TYPE: u16 = 0x0072;

pub const MOD_UD_TYPE: u16 = 0x0083;

pub const SUBSCR_DATA: u16 = 0x00a3;

pub const BYTE_SIZE: u16 = 0x00b6;

pub const BIT_OFFSET: u16 = 0x00c5;

pub const BIT_SIZE: u16 = 0x00d6;

pub const ELEMENT_LIST: u16 = 0x00f4;

pub const LOW_PC: u16 = 0x0111;

pub const HIGH_PC: u16 = 0x0121;

pub const MEMBER: u16 = 0x0142;

pub const CONTAINING_TYPE: u16 = 0x01d2;

pub const PRIVATE: u16 = 0x0248;

pub const PROTECTED: u16 = 0x0268;

pub const PUBLIC: u16 = 0x0288;

pub const SPECIFICATION: u16 = 0x02b2;

// Bit n % 32 of word n / 32 is set where document 01 names n. A match compiles to a table that stands beside the code; a constant array would be made anew at
// each use.
#[tactic(auto, unfolding(crate::specs::Lookup::lookup, crate::specs::Inside::NamedWords::named_words))]
fn named_word(k: u16) -> u32
    ensures { result ≡ lookup named_words 0x00000100 k }
{
    match k {
        0 => 0x00040000,
        1 => 0x01000008,
        2 => 0x00200000,
        3 => 0x00040008,
        4 => 0x00200008,
        5 => 0x00400008,
        6 => 0x00400020,
        7 => 0x00100000,
        8 => 0x00020040,
        9 => 0x00400002,
        10 => 0x00040004,
        11 => 0x00000008,
        12 => 0x00080000,
        13 => 0x01000004,
        14 => 0x000401f8,
        15 => 0x000801a2,
        16 => 0x01000100,
        17 => 0x010000e4,
        18 => 0x01000100,
        19 => 0x01000100,
        20 => 0x01000100,
        21 => 0x00040008,
        22 => 0x00000040,
        23 => 0x00e40040,
        _ => 0x00000100,
    }
}

// Is it one of the 57?
pub fn is_named(n: u16) -> bool
    ensures { result ≡ is_on n attribute_kinds }
{
    if n < 800 {
        (named_word(n / 32) >> (n % 32)) % 2 == 1
    } else {
        false
    }
}

// Does document 01 or the vendor list name it?
pub fn is_known(n: u16, vendors: &[u16]) -> bool
    ensures { result ≡ known vendors.now n }
{
    if is_named(n) {
        true
    } else {
        on_list(vendors, n)
    }
}
