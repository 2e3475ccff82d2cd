// A table and what it was read with: what every call on a table takes.
use crate::row::Counts;
use format::settings::Settings;

// The section and the settings, vendor list and sizes that it was read with; rows and attributes, and how many of each. A part of the section that a call hands back
// may be kept when the rest is gone, so the section's lifetime is its own.
#[derive(Clone, Copy)]
pub struct Table<'s, 'a> {
    pub section: &'s [u8],
    pub settings: Settings,
    pub vendors: &'a [u16],
    pub sizes: &'a [u32],
    pub rows: &'a [u32],
    pub attrs: &'a [u32],
    pub counts: Counts,
}
