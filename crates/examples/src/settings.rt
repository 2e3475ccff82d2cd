// The settings that complete the Rust's, as `format` presets them.
ghost use Rattle.std.specs.Prelude.{◌≡◌};
ghost use Rattle.format.specs.Presets.{rust_sizes};

use format::presets::{MW_VENDORS, mw_roles};
use format::settings::{Producer, Settings};
use numbers::Endian;
use tables::row::Counts;
use tables::table::Table;

// The five types that have no size in the Rust have 4 here.
pub const SIZES: [u32; 28] = [
    2, 1, 1, 1, 2, 2, 2, 4, 4, 4, 4, 4, 4, 4, 4, 8, 4, 4, 4, 0, 1, 4, 4, 8, 8, 8, 16, 8,
];

// They are those of `format`.
pub fn sizes_held() -> [u32; 28]
    ensures { result ≡ rust_sizes 4 }
{
    SIZES
}

pub fn endian_by(little: bool) -> Endian {
    if little { Endian::Little } else { Endian::Big }
}

fn producer_by(number: u32) -> Producer {
    match number {
        0 => Producer::Mwcc,
        1 => Producer::Gcc,
        _ => Producer::Other,
    }
}

// What was read of a section with these settings and the numbers and sizes that complete the Rust's.
pub fn table<'a>(
    section: &'a [u8],
    settings: Settings,
    rows: &'a [u32],
    attrs: &'a [u32],
    counts: Counts,
) -> Table<'a, 'a> {
    Table {
        section,
        settings,
        vendors: &MW_VENDORS,
        sizes: &SIZES,
        rows,
        attrs,
        counts,
    }
}

// Bit 0 is little-endian, bit 1 the erased flag, the rest the producer.
pub fn settings_by(word: u32) -> Settings {
    let roles = mw_roles();
    Settings {
        endian: endian_by(word % 2 == 1),
        erased: word / 2 % 2 == 1,
        producer: producer_by(word / 4),
        roles,
    }
}
