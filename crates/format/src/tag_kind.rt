// The 33 tags, named as in the Rust's `TagKind`. A tag stays a number: a table's rows hold it as one.
ghost use Rattle.std.specs.Prelude.{◌≡◌};
ghost use Rattle.format.specs.Lookup.{is_on};
ghost use Rattle.format.specs.TagKind.{tags};

pub const PADDING: u16 = 0x0000;

pub const ARRAY_TYPE: u16 = 0x0001;

pub const CLASS_TYPE: u16 = 0x0002;

pub const ENTRY_POINT: u16 = 0x0003;

pub const ENUMERATION_TYPE: u16 = 0x0004;

pub const FORMAL_PARAMETER: u16 = 0x0005;

pub const GLOBAL_SUBROUTINE: u16 = 0x0006;

pub const GLOBAL_VARIABLE: u16 = 0x0007;

pub const LABEL: u16 = 0x000a;

pub const LEXICAL_BLOCK: u16 = 0x000b;

pub const LOCAL_VARIABLE: u16 = 0x000c;

pub const MEMBER: u16 = 0x000d;

pub const POINTER_TYPE: u16 = 0x000f;

pub const REFERENCE_TYPE: u16 = 0x0010;

pub const COMPILE_UNIT: u16 = 0x0011;

pub const STRING_TYPE: u16 = 0x0012;

pub const STRUCTURE_TYPE: u16 = 0x0013;

pub const SUBROUTINE: u16 = 0x0014;

pub const SUBROUTINE_TYPE: u16 = 0x0015;

pub const TYPEDEF: u16 = 0x0016;

pub const UNION_TYPE: u16 = 0x0017;

pub const UNSPECIFIED_PARAMETERS: u16 = 0x0018;

pub const VARIANT: u16 = 0x0019;

pub const COMMON_BLOCK: u16 = 0x001a;

pub const COMMON_INCLUSION: u16 = 0x001b;

pub const INHERITANCE: u16 = 0x001c;

pub const INLINED_SUBROUTINE: u16 = 0x001d;

pub const MODULE: u16 = 0x001e;

pub const PTR_TO_MEMBER_TYPE: u16 = 0x001f;

pub const SET_TYPE: u16 = 0x0020;

pub const SUBRANGE_TYPE: u16 = 0x0021;

pub const WITH_STMT: u16 = 0x0022;

pub const MW_OVERLAY_BRANCH: u16 = 0x4080;

// Bit n is set where n is a tag; it covers every tag below 64, so all but one.
const LOW_TAGS: u64 = (1 << PADDING)
    | (1 << ARRAY_TYPE)
    | (1 << CLASS_TYPE)
    | (1 << ENTRY_POINT)
    | (1 << ENUMERATION_TYPE)
    | (1 << FORMAL_PARAMETER)
    | (1 << GLOBAL_SUBROUTINE)
    | (1 << GLOBAL_VARIABLE)
    | (1 << LABEL)
    | (1 << LEXICAL_BLOCK)
    | (1 << LOCAL_VARIABLE)
    | (1 << MEMBER)
    | (1 << POINTER_TYPE)
    | (1 << REFERENCE_TYPE)
    | (1 << COMPILE_UNIT)
    | (1 << STRING_TYPE)
    | (1 << STRUCTURE_TYPE)
    | (1 << SUBROUTINE)
    | (1 << SUBROUTINE_TYPE)
    | (1 << TYPEDEF)
    | (1 << UNION_TYPE)
    | (1 << UNSPECIFIED_PARAMETERS)
    | (1 << VARIANT)
    | (1 << COMMON_BLOCK)
    | (1 << COMMON_INCLUSION)
    | (1 << INHERITANCE)
    | (1 << INLINED_SUBROUTINE)
    | (1 << MODULE)
    | (1 << PTR_TO_MEMBER_TYPE)
    | (1 << SET_TYPE)
    | (1 << SUBRANGE_TYPE)
    | (1 << WITH_STMT);

// Is it one of the 33?
pub fn is_tag(n: u16) -> bool
    ensures { result ≡ is_on n tags }
{
    if n < 64 {
        (LOW_TAGS >> n) % 2 == 1
    } else {
        MW_OVERLAY_BRANCH == n
    }
}
