// Settings as they cross: a number for each.
ghost use Rattle.std.specs.Prelude.{◌≡◌};
ghost use Rattle.exports.specs.Crossing.{endian_from, erased_from, producer_from, settings_from, counts_from};

use format::settings::{Producer, Roles, Settings};
use numbers::Endian;
use tables::row::Counts;

// 0 is big-endian, any other number little-endian.
#[tactic(auto, unfolding(crate::specs::Crossing::endian_from))]
pub(crate) fn endian_from(n: u32) -> Endian
    ensures { result ≡ endian_from n }
{
    if n == 0 { Endian::Big } else { Endian::Little }
}

// 0 is off, any other number on.
#[tactic(auto, unfolding(crate::specs::Crossing::erased_from))]
fn erased_from(n: u32) -> bool
    ensures { result ≡ erased_from n }
{
    n != 0
}

// 0 is MWCC, 1 is GCC, any other number another producer.
#[tactic(auto, unfolding(crate::specs::Crossing::producer_from))]
fn producer_from(n: u32) -> Producer
    ensures { result ≡ producer_from n }
{
    if n == 0 {
        return Producer::Mwcc;
    }
    if n == 1 {
        Producer::Gcc
    } else {
        Producer::Other
    }
}

// The settings: three choices, then the numbers of the four roles, 0 for absent.
#[tactic(auto, unfolding(crate::specs::Crossing::settings_from))]
pub(crate) fn settings_from(
    endian: u32,
    erased: u32,
    producer: u32,
    global_ref: u16,
    mangled: u16,
    overlay_name: u16,
    overlay_id: u16,
) -> Settings
    ensures { result ≡ settings_from endian erased producer global_ref mangled overlay_name overlay_id }
{
    let roles = Roles {
        global_ref,
        mangled,
        overlay_name,
        overlay_id,
    };
    Settings {
        endian: endian_from(endian),
        erased: erased_from(erased),
        producer: producer_from(producer),
        roles,
    }
}

// How many rows and attributes a lent table has.
pub(crate) fn counts_from(rows: u64, attrs: u64) -> Counts
    ensures { result ≡ counts_from rows attrs }
{
    Counts {
        rows: rows as usize,
        attrs: attrs as usize,
    }
}
