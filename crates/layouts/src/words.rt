// Members and structures as `sizes` has them in words. A word past the end reads as 0.
use layout::all::STRUCTURE_WIDTH;
use layout::one::LAID_WIDTH;
use lent::cells::get_or;

// A member in a layout.
#[derive(Clone, Copy)]
pub struct Placed {
    pub offset: u32,
    pub size: u32,
    pub name_place: u32,
    pub name_length: u32,
}

#[derive(Clone, Copy)]
pub struct Structure {
    pub row: u32,
    // 0, or a refusal's number and its place.
    pub number: u32,
    pub place: u64,
    pub size: u32,
    // Its first member among those of all structures, and how many it has.
    pub first: u32,
    pub members: u32,
    pub name_place: u32,
    pub name_length: u32,
}

// All these numbers have 32 bits, but for a refusal's place.
fn low_word(t: &[u64], i: usize) -> u32 {
    (get_or(t, i, 0) % 4294967296) as u32
}

// Member number k of those that begin with the first.
pub fn placed_at(members: &[u64], first: u32, k: u32) -> Placed {
    let at = (first as usize + k as usize) * LAID_WIDTH;
    Placed {
        offset: low_word(members, at),
        size: low_word(members, at + 1),
        name_place: low_word(members, at + 2),
        name_length: low_word(members, at + 3),
    }
}

// Structure number k.
pub fn structure_at(structures: &[u64], k: u32) -> Structure {
    let at = k as usize * STRUCTURE_WIDTH;
    Structure {
        row: low_word(structures, at),
        number: low_word(structures, at + 1),
        size: low_word(structures, at + 2),
        place: get_or(structures, at + 3, 0),
        first: low_word(structures, at + 4),
        members: low_word(structures, at + 5),
        name_place: low_word(structures, at + 6),
        name_length: low_word(structures, at + 7),
    }
}
