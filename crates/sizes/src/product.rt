// The size of an array: its element's size times each dimension, left to right. Products are exact: 20 past 32 bits, at the array.
ghost use Rattle.format.specs.Said.{said, placed};
ghost use Rattle.blocks.specs.Subscript.{said_subscript, next_subscript};
ghost use Rattle.std.specs.Prelude.{◌≡◌};
ghost use Rattle.sizes.specs.Size.{times, product_of};

use blocks::subscript::{Subscript, next_subscript};
use format::refusal::{Reason, Refusal};
use numbers::Endian;
use records::scan::{placed, refused};

// size times many, or 20 at the array.
fn times(key: u32, size: u32, many: u32) -> Result<u32, Refusal>
    ensures { said result ≡ times key size many }
{
    let product = size as u64 * many as u64;
    if product <= 0xffff_ffff {
        Ok(product as u32)
    } else {
        Err(refused(Reason::Big, key))
    }
}

// The subscript that the rest begins with; what is wrong with it is told at the array.
fn subscript_of(rest: &[u8], e: Endian, key: u32) -> Result<Subscript, Refusal>
    ensures { said_subscript result ≡ placed key (next_subscript e rest.now) }
{
    next_subscript(rest, e).map_err(|why| placed(why, key))
}

// Subscript after subscript, each handed the rest that the last one left.
pub(crate) fn product_of(block: &[u8], e: Endian, key: u32, element: u32) -> Result<u32, Refusal>
    ensures { said result ≡ product_of e key block.now element }
{
    let mut rest = block;
    let mut size = element;
    while rest.len() > 0 {
        match subscript_of(rest, e, key)? {
            Subscript::Dimension {
                index: _,
                size: many,
                used,
            } => {
                size = times(key, size, many)?;
                rest = &rest[used..];
            }
            Subscript::Element { of: _, used } => {
                rest = &rest[used..];
            }
        }
    }
    Ok(size)
}
