// The refusals of document 01 and their numbers, 1 to 20 without 14: no input leads to it, so it is not given, and no later reason takes it (document 02, K8).
ghost use Rattle.std.specs.Prelude.{◌≡◌};
ghost use Rattle.format.specs.declared.refusal.Unfilled.TheVariants as unfilled;
ghost use Rattle.format.specs.Refusal.{number_of, reason_of};

#[derive(Clone, Copy)]
pub enum Reason {
    Settings,
    Long,
    Table,
    Short,
    Tag,
    Attribute,
    Nested,
    Room,
    Link,
    Depth,
    Entry,
    Kind,
    Extra,
    Missing,
    Child,
    Block,
    Number,
    Bound,
    Big,
}

// A refusal and its place: 64 bits, since an entry can be wanted past the end of the longest section.
#[derive(Clone, Copy)]
pub struct Refusal {
    pub reason: Reason,
    pub place: u64,
}

// Why lent room was not filled: a refusal, or refusal 8 at 0 with what is needed.
#[derive(Clone, Copy)]
pub enum Unfilled<N> {
    Refused(Refusal),
    Room(N),
}

impl<N> From<Refusal> for Unfilled<N> {
    ghost from_gives = { λ why r. r ≡ unfilled.Refused why };

    fn from(why: Refusal) -> Unfilled<N> {
        Unfilled::Refused(why)
    }
}

// Document 01's number of a reason.
#[tactic(auto, unfolding(crate::specs::Refusal::number_of))]
pub fn number_of(reason: Reason) -> u32
    ensures { result ≡ number_of reason }
{
    match reason {
        Reason::Settings => 1,
        Reason::Long => 2,
        Reason::Table => 3,
        Reason::Short => 4,
        Reason::Tag => 5,
        Reason::Attribute => 6,
        Reason::Nested => 7,
        Reason::Room => 8,
        Reason::Link => 9,
        Reason::Depth => 10,
        Reason::Entry => 11,
        Reason::Kind => 12,
        Reason::Extra => 13,
        Reason::Missing => 15,
        Reason::Child => 16,
        Reason::Block => 17,
        Reason::Number => 18,
        Reason::Bound => 19,
        Reason::Big => 20,
    }
}

// The reason of a number; of one that is none, the first.
#[tactic(auto, unfolding(crate::specs::Lookup::lookup, crate::specs::Refusal::reasons, crate::specs::Refusal::reason_of))]
pub fn reason_of(number: u32) -> Reason
    ensures { result ≡ reason_of number }
{
    match number {
        2 => Reason::Long,
        3 => Reason::Table,
        4 => Reason::Short,
        5 => Reason::Tag,
        6 => Reason::Attribute,
        7 => Reason::Nested,
        8 => Reason::Room,
        9 => Reason::Link,
        10 => Reason::Depth,
        11 => Reason::Entry,
        12 => Reason::Kind,
        13 => Reason::Extra,
        15 => Reason::Missing,
        16 => Reason::Child,
        17 => Reason::Block,
        18 => Reason::Number,
        19 => Reason::Bound,
        20 => Reason::Big,
        _ => Reason::Settings,
    }
}
