// A text's first bytes against fixed bytes.
ghost use Rattle.std.specs.Prelude.{◌≡◌};
ghost use Rattle.numbers.specs.Prefix.{begins_with};

// Does the text begin with the fixed bytes?
#[tactic(auto, using(crate::proofs::Laws::Prefix::starts))]
pub fn starts_with(text: &[u8], fixed: &[u8]) -> bool
    ensures { result ≡ begins_with fixed.now text.now }
{
    text.starts_with(fixed)
}
