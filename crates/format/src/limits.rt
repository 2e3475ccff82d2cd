// The limits of document 01, 'Settings and limits'. Each is named once here and once in specs/Limits.antt: they will be raised.
pub const SECTION_LIMIT: usize = 0x1_0000_0000;

pub const ENTRY_LIMIT: usize = 4096;

pub const ATTRIBUTE_LIMIT: usize = 32768;

pub const ERASED_LIMIT: usize = 16;

pub const DEPTH_LIMIT: usize = 32;

pub const SPECIFICATION_LIMIT: usize = 16;

pub const VENDOR_LIMIT: usize = 64;
