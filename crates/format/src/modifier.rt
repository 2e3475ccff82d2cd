// The modifiers of a type, named as in the Rust's `Modifier`.
ghost use Rattle.std.specs.Prelude.{◌≡◌};
ghost use Rattle.format.specs.Modifier.{modifier_of};

#[derive(Clone, Copy)]
pub enum Modifier {
    MwPointerTo,
    PointerTo,
    ReferenceTo,
    Const,
    Volatile,
    // Refusal 18.
    Unknown,
}

// The Rust's `Modifier::parse_int`: the high bit is dropped.
#[tactic(auto, unfolding(crate::specs::Lookup::lookup, crate::specs::Modifier::modifiers, crate::specs::Modifier::modifier_of))]
pub fn parse_int(value: u8) -> Modifier
    ensures { result ≡ modifier_of value }
{
    match value % 128 {
        0 => Modifier::MwPointerTo,
        1 => Modifier::PointerTo,
        2 => Modifier::ReferenceTo,
        3 => Modifier::Const,
        4 => Modifier::Volatile,
        _ => Modifier::Unknown,
    }
}
