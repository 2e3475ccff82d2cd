// What a record picks out of a row's attributes: the last of a kind counts.
ghost use Rattle.std.specs.Prelude.{◌≡◌};
ghost use Rattle.format.specs.Said.{said};
ghost use Rattle.attributes.specs.Parts.{part_at};
ghost use Rattle.records.specs.Fields.{is_sought, last_from, last_of, text_of, name_of, needed, type_by, type_of, offset_field, address_field};
ghost use Rattle.records.specs.Fields.{word_by, word_of, role_name, role_word, visibility_by, visibility_of};

use crate::scan::{Run, attribute_at, is_type, placed, refused};
use attributes::decode::{block2, part};
use attributes::text::zero_from;
use blocks::location::{process_address, process_offset};
use blocks::types::{Type, process_type};
use format::attribute_kind::{LOCATION, PRIVATE, PROTECTED, PUBLIC};
use format::form_kind::form_of;
use format::refusal::{Reason, Refusal};
use links::typed::{Spot, word_at};

// The kinds of attributes of which the last counts.
#[derive(Clone, Copy)]
pub enum Sought {
    Number(u16),
    Type,
    Visibility,
}

// A text: its bytes are `length` from `place` on.
#[derive(Clone, Copy)]
pub struct Text {
    pub place: usize,
    pub length: usize,
}

#[derive(Clone, Copy)]
pub enum Visibility {
    Private,
    Protected,
    Public,
}

#[tactic(auto, unfolding(crate::specs::Fields::is_sought))]
fn is_sought(sought: Sought, number: u16) -> bool
    ensures { result ≡ is_sought sought number }
{
    match sought {
        Sought::Number(n) => number == n,
        Sought::Type => is_type(number),
        Sought::Visibility => matches!(number, PRIVATE | PROTECTED | PUBLIC),
    }
}

// The last of `count` attributes from `first` on that is sought.
#[tactic(auto, using(crate::proofs::Laws::Fields::lasts))]
pub(crate) fn last_from(attrs: &[u32], first: u32, count: u32, sought: Sought) -> Option<usize>
    ensures { result ≡ last_from sought attrs.now first count }
{
    let from = first as usize;
    for k in (0..count as usize).rev() {
        let attribute = attribute_at(attrs, from + k);
        if is_sought(sought, attribute.number) {
            return Some(from + k);
        }
    }
    None
}

#[tactic(auto, unfolding(crate::specs::Fields::last_of))]
fn last_of(attrs: &[u32], run: Run, sought: Sought) -> Option<usize>
    ensures { result ≡ last_of sought attrs.now run }
{
    last_from(attrs, run.first, run.count, sought)
}

// The text at a place: up to its zero.
#[tactic(auto, unfolding(crate::specs::Fields::text_of))]
fn text_of(s: &[u8], at: usize) -> Text
    ensures { result ≡ text_of s.now at }
{
    Text {
        place: at,
        length: zero_from(s, at) - at,
    }
}

// The text of the last attribute of this number.
#[tactic(auto, unfolding(crate::specs::Fields::name_of, crate::specs::Fields::name_by))]
pub fn last_name(s: &[u8], attrs: &[u32], run: Run, number: u16) -> Option<Text>
    ensures { result ≡ name_of s.now attrs.now run number }
{
    let k = last_of(attrs, run, Sought::Number(number))?;
    Some(text_of(s, attribute_at(attrs, k).value))
}

// The bytes of a text, as that part of the section.
pub fn text_part(s: &[u8], text: Text) -> &[u8]
    ensures { result.now ≡ part_at s.now text.place text.length }
{
    part(s, text.place, text.length)
}

// What a record cannot do without: 15.
#[tactic(auto, using(crate::proofs::Laws::Steps::steps))]
pub(crate) fn needed<T: Copy>(value: Option<T>, key: u32) -> Result<T, Refusal>
    ensures { said result ≡ needed key value }
{
    value.ok_or(refused(Reason::Missing, key))
}

// A record needs its type.
#[tactic(auto, using(crate::proofs::Laws::Steps::steps), unfolding(crate::specs::Fields::type_by))]
pub(crate) fn type_by(
    s: &[u8],
    attrs: &[u32],
    run: Run,
    found: Option<usize>,
) -> Result<Type, Refusal>
    ensures { said result ≡ type_by s.now attrs.now run found }
{
    let attribute = attribute_at(attrs, needed(found, run.key)?);
    process_type(s, attribute.number, attribute.value, run.ends).map_err(|why| placed(why, run.key))
}

#[tactic(auto, unfolding(crate::specs::Fields::type_of))]
pub(crate) fn last_type(s: &[u8], attrs: &[u32], run: Run) -> Result<Type, Refusal>
    ensures { said result ≡ type_of s.now attrs.now run }
{
    type_by(s, attrs, run, last_of(attrs, run, Sought::Type))
}

// A member needs its offset.
#[tactic(auto, using(crate::proofs::Laws::Steps::steps), unfolding(crate::specs::Fields::offset_field, crate::specs::Fields::location_block))]
pub(crate) fn last_offset(s: &[u8], attrs: &[u32], run: Run) -> Result<u32, Refusal>
    ensures { said result ≡ offset_field s.now attrs.now run }
{
    let found = last_of(attrs, run, Sought::Number(LOCATION));
    let attribute = attribute_at(attrs, needed(found, run.key)?);
    let block = block2(s, attribute.value, run.ends);
    process_offset(block, run.ends.section).map_err(|why| placed(why, run.key))
}

#[tactic(auto, using(crate::proofs::Laws::Steps::steps, crate::proofs::Laws::Fields::addresses), unfolding(crate::specs::Fields::address_field))]
pub(crate) fn last_address(s: &[u8], attrs: &[u32], run: Run) -> Option<u32>
    ensures { result ≡ address_field s.now attrs.now run }
{
    let k = last_of(attrs, run, Sought::Number(LOCATION))?;
    let block = block2(s, attribute_at(attrs, k).value, run.ends);
    process_address(block, run.ends.section).ok()
}

// The number that an attribute says.
#[tactic(auto, unfolding(crate::specs::Fields::word_by, crate::specs::Fields::word_in))]
pub(crate) fn word_by(s: &[u8], attrs: &[u32], run: Run, found: Option<usize>) -> Option<u32>
    ensures { result ≡ word_by s.now attrs.now run found }
{
    let attribute = attribute_at(attrs, found?);
    let spot = Spot {
        at: attribute.value,
        ends: run.ends,
    };
    word_at(s, spot, form_of(attribute.number))
}

// The number that the last attribute of this number says.
#[tactic(auto, unfolding(crate::specs::Fields::word_of))]
pub fn last_word(s: &[u8], attrs: &[u32], run: Run, number: u16) -> Option<u32>
    ensures { result ≡ word_of s.now attrs.now run number }
{
    word_by(s, attrs, run, last_of(attrs, run, Sought::Number(number)))
}

// The same, which a record cannot do without.
pub(crate) fn needed_word(s: &[u8], attrs: &[u32], run: Run, number: u16) -> Result<u32, Refusal>
    ensures { said result ≡ needed run.key (word_of s.now attrs.now run number) }
{
    needed(last_word(s, attrs, run, number), run.key)
}

// The text of the attribute that plays a role; a role that is absent is played by none.
#[tactic(auto, unfolding(crate::specs::Fields::role_name))]
pub(crate) fn role_name(s: &[u8], attrs: &[u32], run: Run, role: u16) -> Option<Text>
    ensures { result ≡ role_name s.now attrs.now run role }
{
    if role == 0 {
        None
    } else {
        last_name(s, attrs, run, role)
    }
}

// The number that it says.
#[tactic(auto, unfolding(crate::specs::Fields::role_word))]
pub(crate) fn role_word(s: &[u8], attrs: &[u32], run: Run, role: u16) -> Option<u32>
    ensures { result ≡ role_word s.now attrs.now run role }
{
    if role == 0 {
        None
    } else {
        last_word(s, attrs, run, role)
    }
}

#[tactic(auto, unfolding(crate::specs::Fields::visibility_by))]
fn visibility_by(number: u16) -> Visibility
    ensures { result ≡ visibility_by number }
{
    match number {
        PRIVATE => Visibility::Private,
        PROTECTED => Visibility::Protected,
        _ => Visibility::Public,
    }
}

// Public where nothing else is said.
#[tactic(auto, unfolding(crate::specs::Fields::visibility_of, crate::specs::Fields::visibility_in))]
pub(crate) fn last_visibility(attrs: &[u32], run: Run) -> Visibility
    ensures { result ≡ visibility_of attrs.now run }
{
    match last_of(attrs, run, Sought::Visibility) {
        Some(k) => visibility_by(attribute_at(attrs, k).number),
        None => Visibility::Public,
    }
}
