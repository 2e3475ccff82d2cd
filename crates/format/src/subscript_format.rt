// The formats of a subscript, named as in the Rust's `SubscriptFormat`.
ghost use Rattle.std.specs.Prelude.{◌≡◌};
ghost use Rattle.format.specs.SubscriptFormat.{subscript_format_of};

#[derive(Clone, Copy)]
pub enum SubscriptFormat {
    FundTypeConstConst,
    FundTypeConstLocation,
    FundTypeLocationConst,
    FundTypeLocationLocation,
    UserTypeConstConst,
    UserTypeConstLocation,
    UserTypeLocationConst,
    UserTypeLocationLocation,
    ElementType,
    Unknown,
}

// The format of a byte.
#[tactic(auto, unfolding(crate::specs::Lookup::lookup, crate::specs::SubscriptFormat::subscript_formats, crate::specs::SubscriptFormat::subscript_format_of))]
pub fn subscript_format(n: u8) -> SubscriptFormat
    ensures { result ≡ subscript_format_of n }
{
    match n {
        0 => SubscriptFormat::FundTypeConstConst,
        1 => SubscriptFormat::FundTypeConstLocation,
        2 => SubscriptFormat::FundTypeLocationConst,
        3 => SubscriptFormat::FundTypeLocationLocation,
        4 => SubscriptFormat::UserTypeConstConst,
        5 => SubscriptFormat::UserTypeConstLocation,
        6 => SubscriptFormat::UserTypeLocationConst,
        7 => SubscriptFormat::UserTypeLocationLocation,
        8 => SubscriptFormat::ElementType,
        _ => SubscriptFormat::Unknown,
    }
}
