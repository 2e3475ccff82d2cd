// The element list of an enumeration: pairs of a value and a name. A width of 0 says that only names are read and nothing is listed.
ghost use Rattle.std.specs.Prelude.{◌≡◌, ◌+◌, ◌^◌, ◌<◌};
ghost use Rattle.format.specs.Said.{placed};
ghost use Rattle.records.specs.Elements.{list_width, value_at, name_from, named_from, element_at, elements_in};
ghost use Rattle.records.specs.Inside.Elements.{slot_of, listed_as, ElementsStored, Addable, StoredFrom};

use crate::scan::refused;
use attributes::text::zero_from;
use format::refusal::{Reason, Refusal};
use lent::cells::put;
use numbers::Endian;
use numbers::number::number_at;

// A value and the name at `place`, of `length` bytes; where the next element begins.
#[derive(Clone, Copy)]
pub enum Element {
    Is {
        value: i32,
        place: usize,
        length: usize,
        next: usize,
    },
    // Only a name.
    Name(usize),
}

// Where the elements of a list go: number k of `total` to slot k, or from the back.
#[derive(Clone, Copy)]
pub struct Slots {
    pub reversed: bool,
    pub total: usize,
}

// A ByteSize of 1, 2 or 4 is the width of the values; with any other, or none yet, there are none.
#[tactic(auto, unfolding(crate::specs::Elements::list_width))]
pub(crate) fn list_width(size: Option<u32>) -> usize
    ensures { result ≡ list_width size }
{
    match size {
        Some(1) => 1,
        Some(2) => 2,
        Some(4) => 4,
        _ => 0,
    }
}

#[tactic(auto, unfolding(crate::specs::Elements::value_at))]
fn value_at(block: &[u8], at: usize, e: Endian, width: usize) -> Option<i32>
    ensures { result ≡ value_at width e block.now at }
{
    if width == 1 {
        number_at::<i8>(block, at, e).map(i32::from)
    } else if width == 2 {
        number_at::<i16>(block, at, e).map(i32::from)
    } else {
        number_at::<i32>(block, at, e)
    }
}

// An element with this value, whose name begins at a place of the block.
#[tactic(auto, unfolding(crate::specs::Elements::named_from))]
fn named_from(block: &[u8], at: usize, value: i32) -> Option<Element>
    ensures { result ≡ named_from block.now at value }
{
    let zero = zero_from(block, at);
    if zero < block.len() {
        Some(Element::Is {
            value,
            place: at,
            length: zero - at,
            next: zero + 1,
        })
    } else {
        None
    }
}

#[tactic(auto, unfolding(crate::specs::Elements::name_from))]
fn name_from(block: &[u8], at: usize) -> Option<Element>
    ensures { result ≡ name_from block.now at }
{
    let zero = zero_from(block, at);
    if zero < block.len() {
        Some(Element::Name(zero + 1))
    } else {
        None
    }
}

// The element at a place of the block.
#[tactic(auto, unfolding(crate::specs::Elements::element_at, crate::specs::Elements::valued))]
fn element_at(block: &[u8], at: usize, e: Endian, width: usize) -> Option<Element>
    requires { at + width < 2 ^ 64 }
    ensures { result ≡ element_at width e block.now at }
{
    if width == 0 {
        return name_from(block, at);
    }
    let value = value_at(block, at, e, width)?;
    named_from(block, at + width, value)
}

#[tactic(auto, unfolding(crate::specs::Inside::Elements::slot_of))]
fn slot_of(slots: Slots, k: usize) -> usize
    ensures { result ≡ slot_of slots k }
{
    if slots.reversed {
        if k < slots.total {
            slots.total - 1 - k
        } else {
            0
        }
    } else {
        k
    }
}

// A value, and the place and length of its name in the section, into the rooms.
fn put_element(
    values: &mut [i32],
    names: &mut [u64],
    slot: usize,
    value: i32,
    place: usize,
    length: usize,
)
    ensures { ElementsStored slot (listed_as value place length) values.old values.new names.old names.new }
{
    put(values, slot, value);
    if slot < names.len() {
        put(names, slot * 2, place as u64);
        put(names, slot * 2 + 1, length as u64);
    }
}

// A whole list, whose block stands at `base` of the section: elements from number k on.
pub(crate) fn read_list(
    block: &[u8],
    e: Endian,
    width: usize,
    base: usize,
    key: u32,
    slots: Slots,
    k: usize,
    values: &mut [i32],
    names: &mut [u64],
) -> Result<usize, Refusal>
    requires { Addable base width block.now k }
    ensures { StoredFrom (placed key (elements_in width e base block.now)) slots k result values.old values.new
        names.old names.new }
{
    let mut at: usize = 0;
    let mut count = k;
    while at < block.len() {
        match element_at(block, at, e, width).ok_or(refused(Reason::Block, key))? {
            Element::Is {
                value,
                place,
                length,
                next,
            } => {
                let slot = slot_of(slots, count);
                put_element(values, names, slot, value, base + place, length);
                count += 1;
                at = next;
            }
            Element::Name(next) => at = next,
        }
    }
    Ok(count)
}
