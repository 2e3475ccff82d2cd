// Room for what is read. A contract says the length alone. Only the longest section needs a function for that: written where it is lent, its bytes would
// stand in the callers' proofs. The other rooms are here so that all sizes stand in one place.
ghost use Rattle.std.specs.Prelude.{◌*◌, ◌≡◌, length};
ghost use Rattle.format.specs.Limits.{entry_limit, attribute_limit};
ghost use Rattle.tables.specs.Row.{row_width, attr_width};

use format::limits::{ATTRIBUTE_LIMIT, ENTRY_LIMIT};
use tables::row::{ATTR_WIDTH, ROW_WIDTH};

// The longest section.
pub fn section_room() -> [u8; 1048576]
    ensures { 1048576 ≡ length result }
{
    [0; 1048576]
}

// 4,096 rows.
pub fn row_room() -> [u32; ENTRY_LIMIT * ROW_WIDTH]
    ensures { entry_limit * row_width ≡ length result }
{
    [0; ENTRY_LIMIT * ROW_WIDTH]
}

// 32,768 attributes.
pub fn attribute_room() -> [u32; ATTRIBUTE_LIMIT * ATTR_WIDTH]
    ensures { attribute_limit * attr_width ≡ length result }
{
    [0; ATTRIBUTE_LIMIT * ATTR_WIDTH]
}

// 4,096 structures.
pub fn structure_room() -> [u64; 32768]
    ensures { 32768 ≡ length result }
{
    [0; 32768]
}

// 16,384 members.
pub fn member_room() -> [u64; 65536]
    ensures { 65536 ≡ length result }
{
    [0; 65536]
}

// The children of one structure, of 4,096 rows.
pub fn child_room() -> [u32; 4096]
    ensures { 4096 ≡ length result }
{
    [0; 4096]
}
