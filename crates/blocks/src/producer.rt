// Who produced a section, by the first bytes of its producer text.
ghost use Rattle.std.specs.Prelude.{◌≡◌};
ghost use Rattle.blocks.specs.Producer.{parse_producer};

use format::settings::Producer;
use numbers::prefix::starts_with;

// MW is Metrowerks' compiler, GNU C is GCC, all else another.
#[tactic(auto, unfolding(crate::specs::Producer::parse_producer))]
pub fn parse_producer(text: &[u8]) -> Producer
    ensures { result ≡ parse_producer text.now }
{
    if starts_with(text, b"MW") {
        Producer::Mwcc
    } else if starts_with(text, b"GNU C") {
        Producer::Gcc
    } else {
        Producer::Other
    }
}
