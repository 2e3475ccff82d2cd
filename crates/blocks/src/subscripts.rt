// All subscripts of an array: the dimensions into lent room, and the element type.
ghost use Rattle.std.specs.Prelude.{◌≡◌, ◌+◌, ◌*◌, ◌^◌, ◌<◌};
ghost use Rattle.std.proofs.lemmas.List.Edits.{sets};
ghost use Rattle.lent.specs.Outcome.{Given};
ghost use Rattle.format.specs.Said.{said, said_counted};
ghost use Rattle.blocks.specs.Subscripts.{dimension_words, element_or, raised, count_subscripts};
ghost use Rattle.blocks.specs.Subscripts.{process_array_subscript_data};
ghost use Rattle.blocks.specs.Inside.Subscripts.{Walked};

use crate::location::refused_block;
use crate::subscript::{Subscript, next_subscript};
use crate::types::Type;
use format::refusal::{Reason, Refusal, Unfilled};
use lent::cells::put_all;
use numbers::Endian;

// The words of a dimension: its index type, its size (0 is unbounded).
pub const DIMENSION_WIDTH: usize = 2;

// The element type, its modifiers' place counted from the block's first byte, and how many dimensions there are.
#[derive(Clone, Copy)]
pub struct Array {
    pub element: Type,
    pub dimensions: usize,
}

#[tactic(auto, unfolding(crate::specs::Subscripts::dimension_words))]
fn put_dimension(t: &mut [u32], n: usize, index: u16, size: u32)
    ensures { t.new ≡ sets t.old (n * 2) (dimension_words index size) }
{
    if n < t.len() {
        put_all(t, n * DIMENSION_WIDTH, &[index as u32, size]);
    }
}

// An array needs an element type.
#[tactic(auto, unfolding(crate::specs::Subscripts::element_or, format::specs::Said::said))]
fn element_or(element: Option<Type>, dimensions: usize) -> Result<Array, Refusal>
    ensures { said result ≡ element_or dimensions element }
{
    Ok(Array {
        element: element.ok_or(refused_block(Reason::Block))?,
        dimensions,
    })
}

// A type that was read out of a part which begins at a place, as one of the whole.
#[tactic(auto, unfolding(crate::specs::Subscripts::raised))]
fn raised(of: Type, at: usize) -> Type
    requires { at + of.place < 2 ^ 64 }
    ensures { result ≡ raised at of }
{
    Type {
        place: at + of.place,
        ..of
    }
}

// Subscript after subscript, each handed the rest that the last one left; the dimensions into the room, as far as they fit.
fn walk_subscripts(block: &[u8], e: Endian, dims: &mut [u32]) -> Result<Array, Refusal>
    ensures { Walked e block.now result dims.old dims.new }
{
    let mut rest = block;
    let mut dimensions: usize = 0;
    let mut element = None;
    while !rest.is_empty() {
        match next_subscript(rest, e)? {
            Subscript::Dimension { index, size, used } => {
                put_dimension(dims, dimensions, index, size);
                dimensions += 1;
                rest = &rest[used..];
            }
            Subscript::Element { of, used } => {
                element = Some(raised(of, block.len() - rest.len()));
                rest = &rest[used..];
            }
        }
    }
    element_or(element, dimensions)
}

// The element type and the number of dimensions, with no room: all subscripts are read.
pub fn count_subscripts(block: &[u8], e: Endian) -> Result<Array, Refusal>
    ensures { said result ≡ count_subscripts e block.now }
{
    walk_subscripts(block, e, &mut [])
}

// The Rust's `process_array_subscript_data`: the dimensions into lent room, two words each; or a refusal, and the room stays as it was.
pub fn process_array_subscript_data(
    block: &[u8],
    e: Endian,
    dims: &mut [u32],
) -> Result<Array, Unfilled<usize>>
    ensures { Given (process_array_subscript_data e block.now dims.old) (said_counted result) dims.new }
{
    let array = count_subscripts(block, e)?;
    if array.dimensions > dims.len() / DIMENSION_WIDTH {
        return Err(Unfilled::Room(array.dimensions));
    }
    let _ = walk_subscripts(block, e, dims);
    Ok(array)
}
