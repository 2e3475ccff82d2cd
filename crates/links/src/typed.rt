// The typed lookups: the first attribute of a kind in the row of a key, and what it says by its form. They stand for the lookups of the Rust's `impl Tag`.
ghost use Rattle.tables.specs.Table.{table_of};
ghost use Rattle.format.specs.Said.{said};
ghost use Rattle.std.specs.Prelude.{◌≡◌};
ghost use Rattle.links.specs.Attribute.{attribute_of};
ghost use Rattle.links.specs.Typed.{attr_found, attribute_of_key, spot_at, spot_in, place_of_key};
ghost use Rattle.links.specs.Typed.{word_at, value_of_key, lies_at, extent_of_key, part_of, block_form};

use crate::lookup::{Wanted, attribute_of};
use attributes::decode::{
    Endians, Extent, address, block2_at, block4_at, data2, data4, part, reference, string_at,
};
use format::form_kind::{FormKind, is_form};
use format::refusal::Refusal;
use tables::keyed::row_of;
use tables::row::{Attr, attr_at, ends_of};
use tables::table::Table;

// The place of a value, and the endiannesses it is read in.
#[derive(Clone, Copy)]
pub struct Spot {
    pub at: usize,
    pub ends: Endians,
}

#[tactic(auto, unfolding(crate::specs::Typed::attr_found))]
fn look_in(t: &Table<'_, '_>, i: usize, wanted: Wanted) -> Option<Attr>
    ensures { result ≡ attr_found t.now.attrs.now (attribute_of t.now.rows.now t.now.attrs.now i wanted) }
{
    let k = attribute_of(t, i, wanted)?;
    Some(attr_at(t.attrs, k))
}

fn look(t: &Table<'_, '_>, key: u32, wanted: Wanted) -> Result<Option<Attr>, Refusal>
    ensures { said result ≡ attribute_of_key (table_of t.now) key wanted }
{
    let i = row_of(t, key)?;
    Ok(look_in(t, i, wanted))
}

// The first attribute of this number in the row of a key.
pub fn attribute(t: &Table<'_, '_>, key: u32, number: u16) -> Result<Option<Attr>, Refusal>
    ensures { said result ≡ attribute_of_key (table_of t.now) key (Wanted.Number number) }
{
    look(t, key, Wanted::Number(number as u32))
}

// The first type attribute.
pub fn type_attribute(t: &Table<'_, '_>, key: u32) -> Result<Option<Attr>, Refusal>
    ensures { said result ≡ attribute_of_key (table_of t.now) key Wanted.Type }
{
    look(t, key, Wanted::Type)
}

// Where row i's first attribute of this number has its value.
#[tactic(auto, unfolding(crate::specs::Typed::spot_at, crate::specs::Typed::spot_found))]
fn spot_at(t: &Table<'_, '_>, i: usize, number: u32) -> Option<Spot>
    ensures { result ≡ spot_at t.now.settings.endian t.now.rows.now t.now.attrs.now number i }
{
    let k = attribute_of(t, i, Wanted::Number(number))?;
    let attr = attr_at(t.attrs, k);
    Some(Spot {
        at: attr.value as usize,
        ends: ends_of(t.settings.endian, t.rows, i),
    })
}

// The same, if it has this form.
#[tactic(auto, unfolding(crate::specs::Typed::spot_in))]
fn spot_in(t: &Table<'_, '_>, i: usize, number: u16, form: FormKind) -> Option<Spot>
    ensures { result ≡ spot_in t.now.settings.endian t.now.rows.now t.now.attrs.now number form i }
{
    if is_form(form, number) {
        spot_at(t, i, number as u32)
    } else {
        None
    }
}

// The same in the row of a key.
fn place_of(
    t: &Table<'_, '_>,
    key: u32,
    number: u16,
    form: FormKind,
) -> Result<Option<Spot>, Refusal>
    ensures { said result ≡ place_of_key (table_of t.now) key number form }
{
    let i = row_of(t, key)?;
    Ok(spot_in(t, i, number, form))
}

// What the number at a spot is, by its form.
#[tactic(auto, unfolding(crate::specs::Typed::word_at))]
pub fn word_at(s: &[u8], spot: Spot, form: FormKind) -> Option<u32>
    ensures { result ≡ word_at form s.now spot }
{
    match form {
        FormKind::Addr => address(s, spot.at, spot.ends),
        FormKind::Ref => reference(s, spot.at, spot.ends),
        FormKind::Data2 => data2(s, spot.at, spot.ends).map(u32::from),
        FormKind::Data4 => data4(s, spot.at, spot.ends),
        FormKind::Block2
        | FormKind::Block4
        | FormKind::Data8
        | FormKind::String
        | FormKind::Undefined => None,
    }
}

fn value_of(
    t: &Table<'_, '_>,
    key: u32,
    number: u16,
    form: FormKind,
) -> Result<Option<u32>, Refusal>
    ensures { said result ≡ value_of_key (table_of t.now) key number form }
{
    let spot = place_of(t, key, number, form)?;
    Ok(spot.and_then(|spot| word_at(t.section, spot, form)))
}

// The address that the first attribute of this number says.
pub fn address_attribute(t: &Table<'_, '_>, key: u32, number: u16) -> Result<Option<u32>, Refusal>
    ensures { said result ≡ value_of_key (table_of t.now) key number FormKind.Addr }
{
    value_of(t, key, number, FormKind::Addr)
}

// The key that it refers to.
pub fn reference_attribute(t: &Table<'_, '_>, key: u32, number: u16) -> Result<Option<u32>, Refusal>
    ensures { said result ≡ value_of_key (table_of t.now) key number FormKind.Ref }
{
    value_of(t, key, number, FormKind::Ref)
}

// Its 2-byte number.
pub fn data2_attribute(t: &Table<'_, '_>, key: u32, number: u16) -> Result<Option<u32>, Refusal>
    ensures { said result ≡ value_of_key (table_of t.now) key number FormKind.Data2 }
{
    value_of(t, key, number, FormKind::Data2)
}

// Its 4-byte number.
pub fn data4_attribute(t: &Table<'_, '_>, key: u32, number: u16) -> Result<Option<u32>, Refusal>
    ensures { said result ≡ value_of_key (table_of t.now) key number FormKind.Data4 }
{
    value_of(t, key, number, FormKind::Data4)
}

// Where the text or block at a spot lies, by its form.
#[tactic(auto, unfolding(crate::specs::Typed::lies_at))]
fn lies_at(s: &[u8], spot: Spot, form: FormKind) -> Option<Extent>
    ensures { result ≡ lies_at form s.now spot }
{
    match form {
        FormKind::String => string_at(s, spot.at),
        FormKind::Block2 => block2_at(s, spot.at, spot.ends),
        FormKind::Block4 => block4_at(s, spot.at, spot.ends),
        FormKind::Addr
        | FormKind::Ref
        | FormKind::Data2
        | FormKind::Data4
        | FormKind::Data8
        | FormKind::Undefined => None,
    }
}

fn part_place(
    t: &Table<'_, '_>,
    key: u32,
    number: u16,
    form: FormKind,
) -> Result<Option<Extent>, Refusal>
    ensures { said result ≡ extent_of_key (table_of t.now) key number form }
{
    let place = place_of(t, key, number, form)?;
    Ok(place.and_then(|spot| lies_at(t.section, spot, form)))
}

// Where the text lies that the first attribute of this number in the row of a key says: its place in the section, and its length without the zero.
pub fn string_place(t: &Table<'_, '_>, key: u32, number: u16) -> Result<Option<Extent>, Refusal>
    ensures { said result ≡ extent_of_key (table_of t.now) key number FormKind.String }
{
    part_place(t, key, number, FormKind::String)
}

#[tactic(auto, unfolding(crate::specs::Typed::block_form))]
fn block_form(number: u16) -> FormKind
    ensures { result ≡ block_form number }
{
    if is_form(FormKind::Block2, number) {
        FormKind::Block2
    } else {
        FormKind::Block4
    }
}

// Where the bytes of its block lie.
pub fn block_place(t: &Table<'_, '_>, key: u32, number: u16) -> Result<Option<Extent>, Refusal>
    ensures { said result ≡ extent_of_key (table_of t.now) key number (block_form number) }
{
    part_place(t, key, number, block_form(number))
}

// The bytes that stand there.
#[tactic(auto, unfolding(crate::specs::Typed::part_of, format::specs::Said::said))]
fn part_in(s: &[u8], placed: Result<Option<Extent>, Refusal>) -> &[u8]
    ensures { result.now ≡ part_of s.now (said placed) }
{
    match placed {
        Ok(Some(x)) => part(s, x.place, x.length),
        Ok(None) | Err(_) => &s[..0],
    }
}

// The text itself, as that part of the section; nothing where `string_place` tells none. Where it lies, and whether an empty one is there, that tells.
pub fn string_attribute<'s>(t: &Table<'s, '_>, key: u32, number: u16) -> &'s [u8]
    ensures { result.now ≡ part_of t.now.section.now (extent_of_key (table_of t.now) key number FormKind.String) }
{
    part_in(t.section, string_place(t, key, number))
}

// The bytes of its block, likewise by `block_place`.
pub fn block_attribute<'s>(t: &Table<'s, '_>, key: u32, number: u16) -> &'s [u8]
    ensures { result.now ≡ part_of t.now.section.now (extent_of_key (table_of t.now) key number (block_form number)) }
{
    part_in(t.section, block_place(t, key, number))
}
