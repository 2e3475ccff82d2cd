// The modifiers of a type: each byte one, its high bit dropped.
ghost use Rattle.std.specs.Prelude.{◌≡◌};
ghost use Rattle.format.specs.Said.{said};
ghost use Rattle.blocks.specs.Modifiers.{is_known, is_pointer, process_modifiers};

use crate::location::refused_block;
use format::modifier::{Modifier, parse_int};
use format::refusal::{Reason, Refusal};

#[tactic(auto, unfolding(crate::specs::Modifiers::is_known))]
fn is_known(m: Modifier) -> bool
    ensures { result ≡ is_known m }
{
    !matches!(m, Modifier::Unknown)
}

// Is what it modifies only pointed to?
#[tactic(auto, unfolding(crate::specs::Modifiers::is_pointer))]
fn is_pointer(m: Modifier) -> bool
    ensures { result ≡ is_pointer m }
{
    matches!(
        m,
        Modifier::MwPointerTo | Modifier::PointerTo | Modifier::ReferenceTo
    )
}

// Whether a pointer or a reference stands among modifiers; or 18 for one that is not known.
#[tactic(auto, using(crate::proofs::Laws::Modifiers::each), unfolding(format::specs::Said::said))]
pub fn process_modifiers(block: &[u8]) -> Result<bool, Refusal>
    ensures { said result ≡ process_modifiers block.now }
{
    let mut pointer = false;
    for byte in block {
        let m = parse_int(*byte);
        if !is_known(m) {
            return Err(refused_block(Reason::Number));
        }
        pointer |= is_pointer(m);
    }
    Ok(pointer)
}
