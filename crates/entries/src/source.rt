// A section and what stays the same through a whole reading of it.

// The section and its vendor list, the erased flag, and the number that plays MwGlobalRef.
#[derive(Clone, Copy)]
pub struct Source<'a> {
    pub section: &'a [u8],
    pub vendors: &'a [u16],
    pub erased: bool,
    pub global: u16,
}
