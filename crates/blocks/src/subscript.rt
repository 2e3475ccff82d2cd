// One subscript of an array: a dimension or the element type, and how many bytes it takes.
ghost use Rattle.format.specs.Said.{said};
ghost use Rattle.std.specs.Prelude.{◌≡◌};
ghost use Rattle.format.specs.FundType.{fund_type_of};
ghost use Rattle.blocks.specs.Subscript.{said_subscript, index_at, const_bound, location_size, location_bound, element_as, element_type_at, subscript_as};
ghost use Rattle.blocks.specs.Subscript.{next_subscript};
ghost use Rattle.blocks.specs.Inside.Subscript.{low_bound, known_index, high_bound, sized_dimension, sized_by, high_location};

use crate::location::{process_offset, refused_block};
use crate::types::{Type, process_type};
use attributes::decode::{Endians, part};
use attributes::read::{Attribute, read_attribute};
use format::fund_type::try_from;
use format::refusal::{Reason, Refusal};
use format::subscript_format::{SubscriptFormat, subscript_format};
use numbers::Endian;
use numbers::number::{bytes_there, number_at};

#[derive(Clone, Copy)]
pub enum Subscript {
    // The index type and the size; 0 is unbounded.
    Dimension { index: u16, size: u32, used: usize },
    Element { of: Type, used: usize },
}

// The low bound must be 0.
#[tactic(auto, using(crate::proofs::Laws::Steps::steps), unfolding(crate::specs::Inside::Subscript::low_bound))]
fn low_bound(block: &[u8], e: Endian, index: u16) -> Result<u16, Refusal>
    ensures { said result ≡ low_bound e block.now index }
{
    let low = number_at::<u32>(block, 3, e).ok_or(refused_block(Reason::Block))?;
    if low == 0 {
        Ok(index)
    } else {
        Err(refused_block(Reason::Bound))
    }
}

// An index type does not pass `parse_int`.
#[tactic(auto, using(crate::proofs::Laws::Steps::steps), unfolding(crate::specs::Inside::Subscript::known_index))]
fn known_index(block: &[u8], e: Endian, number: u16) -> Result<u16, Refusal>
    ensures { said result ≡ known_index e block.now (fund_type_of number) }
{
    let index = try_from(number).ok_or(refused_block(Reason::Number))?;
    low_bound(block, e, index)
}

#[tactic(auto, using(crate::proofs::Laws::Subscript::parts))]
fn index_at(block: &[u8], e: Endian) -> Result<u16, Refusal>
    ensures { said result ≡ index_at e block.now }
{
    let number = number_at::<u16>(block, 1, e).ok_or(refused_block(Reason::Block))?;
    known_index(block, e, number)
}

// The high bound plus one, wrapping: 0xFFFFFFFF is unbounded.
#[tactic(auto, using(crate::proofs::Laws::Subscript::parts), unfolding(crate::specs::Inside::Subscript::high_bound))]
fn high_bound(block: &[u8], e: Endian, index: u16) -> Result<Subscript, Refusal>
    ensures { said_subscript result ≡ high_bound e block.now index }
{
    let high = number_at::<u32>(block, 7, e).ok_or(refused_block(Reason::Block))?;
    Ok(Subscript::Dimension {
        index,
        size: high.wrapping_add(1),
        used: 11,
    })
}

// Format 0.
#[tactic(auto, using(crate::proofs::Laws::Subscript::parts))]
fn const_bound(block: &[u8], e: Endian) -> Result<Subscript, Refusal>
    ensures { said_subscript result ≡ const_bound e block.now }
{
    let index = index_at(block, e)?;
    high_bound(block, e, index)
}

// A location's offset is the size itself; an empty one is unbounded.
#[tactic(auto, using(crate::proofs::Laws::Steps::steps), unfolding(crate::specs::Subscript::location_size))]
fn location_size(location: &[u8], e: Endian) -> Result<u32, Refusal>
    ensures { said result ≡ location_size e location.now }
{
    if location.is_empty() {
        Ok(0)
    } else {
        process_offset(location, e)
    }
}

#[tactic(auto, using(crate::proofs::Laws::Subscript::parts), unfolding(crate::specs::Inside::Subscript::sized_dimension))]
fn sized_dimension(location: &[u8], e: Endian, index: u16) -> Result<Subscript, Refusal>
    ensures { said_subscript result ≡ sized_dimension e index location.now }
{
    let size = location_size(location, e)?;
    Ok(Subscript::Dimension {
        index,
        size,
        used: 9 + location.len(),
    })
}

// A location of n bytes.
#[tactic(auto, using(crate::proofs::Laws::Subscript::parts))]
fn sized_by(block: &[u8], e: Endian, index: u16, n: usize) -> Result<Subscript, Refusal>
    ensures { said_subscript result ≡ sized_by e block.now index n }
{
    if bytes_there(block, 9, n) {
        sized_dimension(part(block, 9, n), e, index)
    } else {
        Err(refused_block(Reason::Block))
    }
}

#[tactic(auto, using(crate::proofs::Laws::Subscript::parts), unfolding(crate::specs::Inside::Subscript::high_location))]
fn high_location(block: &[u8], e: Endian, index: u16) -> Result<Subscript, Refusal>
    ensures { said_subscript result ≡ high_location e block.now index }
{
    let n = number_at::<u16>(block, 7, e).ok_or(refused_block(Reason::Block))?;
    sized_by(block, e, index, n as usize)
}

// Format 1.
#[tactic(auto, using(crate::proofs::Laws::Subscript::parts))]
fn location_bound(block: &[u8], e: Endian) -> Result<Subscript, Refusal>
    ensures { said_subscript result ≡ location_bound e block.now }
{
    let index = index_at(block, e)?;
    high_location(block, e, index)
}

#[tactic(auto, using(crate::proofs::Laws::Subscript::parts), unfolding(crate::specs::Subscript::element_as))]
fn element_type(block: &[u8], e: Endian, attribute: Attribute) -> Result<Subscript, Refusal>
    ensures { said_subscript result ≡ element_as e block.now (Ok attribute) }
{
    let ends = Endians {
        section: e,
        data: e,
    };
    let of = process_type(block, attribute.number, attribute.value, ends)?;
    Ok(Subscript::Element {
        of,
        used: attribute.next,
    })
}

// Format 8: a type attribute. No vendor number is one, so none need be known here.
#[tactic(auto, using(crate::proofs::Laws::Subscript::parts), unfolding(crate::specs::Subscript::element_type_at, crate::specs::Subscript::element_as))]
fn element(block: &[u8], e: Endian) -> Result<Subscript, Refusal>
    ensures { said_subscript result ≡ element_type_at e block.now }
{
    let Ok(attribute) = read_attribute(block, 1, e, &[]) else {
        return Err(refused_block(Reason::Block));
    };
    element_type(block, e, attribute)
}

#[tactic(auto, using(crate::proofs::Laws::Subscript::parts), unfolding(crate::specs::Subscript::subscript_as))]
fn subscript_as(block: &[u8], e: Endian, format: SubscriptFormat) -> Result<Subscript, Refusal>
    ensures { said_subscript result ≡ subscript_as e block.now format }
{
    match format {
        SubscriptFormat::FundTypeConstConst => const_bound(block, e),
        SubscriptFormat::FundTypeConstLocation => location_bound(block, e),
        SubscriptFormat::ElementType => element(block, e),
        _ => Err(refused_block(Reason::Block)),
    }
}

// The subscript that a block begins with. What follows it is `&block[used..]`, and `used` is at least 1 and inside the block.
#[tactic(auto, using(crate::proofs::Laws::Subscript::parts), unfolding(crate::specs::Subscript::next_subscript))]
pub fn next_subscript(block: &[u8], e: Endian) -> Result<Subscript, Refusal>
    ensures { said_subscript result ≡ next_subscript e block.now }
{
    if block.is_empty() {
        return Err(refused_block(Reason::Block));
    }
    subscript_as(block, e, subscript_format(block[0]))
}
