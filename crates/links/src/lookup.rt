// Attribute lookup in a row: the first of a kind counts.
ghost use Rattle.std.specs.Prelude.{◌≡◌, ◌+◌, ◌^◌, ◌<◌};
ghost use Rattle.links.specs.Attribute.{wants, attr_from, attribute_of, reference_of};

use numbers::number::number_at;
use tables::row::{attr_at, row_at};
use tables::table::Table;

// What is looked for: an attribute of this number, or a type attribute.
#[derive(Clone, Copy)]
pub enum Wanted {
    Number(u32),
    Type,
}

#[tactic(auto, unfolding(crate::specs::Attribute::wants))]
fn is_wanted(wanted: Wanted, number: u32) -> bool
    ensures { result ≡ wants wanted number }
{
    match wanted {
        Wanted::Number(n) => number == n,
        Wanted::Type => matches!(number, 0x55 | 0x63 | 0x72 | 0x83),
    }
}

// The first of n attributes from `first` on that is wanted.
fn first_attribute(attrs: &[u32], first: usize, n: usize, wanted: Wanted) -> Option<usize>
    requires { first + n < 2 ^ 64 }
    ensures { result ≡ attr_from wanted attrs.now first n }
{
    for k in 0..n {
        let attr = attr_at(attrs, first + k);
        if is_wanted(wanted, attr.number) {
            return Some(first + k);
        }
    }
    None
}

// The first attribute of row i that is wanted.
#[tactic(auto, unfolding(crate::specs::Attribute::attribute_of))]
pub(crate) fn attribute_of(t: &Table<'_, '_>, i: usize, wanted: Wanted) -> Option<usize>
    ensures { result ≡ attribute_of t.now.rows.now t.now.attrs.now i wanted }
{
    let row = row_at(t.rows, i);
    first_attribute(t.attrs, row.first as usize, row.count as usize, wanted)
}

// The key that row i's first attribute of this number refers to.
#[tactic(auto, unfolding(crate::specs::Attribute::reference_of, crate::specs::Attribute::reference_by))]
pub fn reference_of(t: &Table<'_, '_>, i: usize, number: u32) -> Option<u32>
    ensures { result ≡ reference_of t.now.settings.endian t.now.section.now t.now.rows.now t.now.attrs.now i number }
{
    let k = attribute_of(t, i, Wanted::Number(number))?;
    let attr = attr_at(t.attrs, k);
    number_at::<u32>(t.section, attr.value as usize, t.settings.endian)
}
