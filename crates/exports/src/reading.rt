// Reading and counting. Results: how many rows and attributes were read or, with 8, are needed, and at any other refusal what they held; the third is the byte
// that 4 to 6 tell, which is part of the answer and always written.
ghost use Rattle.std.specs.Prelude.{◌≡◌};
ghost use Rattle.entries.specs.Section.{said_count, said_section, count_debug_section, read_debug_section};
ghost use Rattle.exports.specs.Crossing.{results, settings_from, no_byte, counts_told, SaysThree, SectionCrosses};
ghost use Rattle.exports.specs.Inside.Told.{told_as, refused_as};

use crate::settings::settings_from;
use crate::told::{Results, Told, refused_as, told_as};
use entries::section::{CountError, SectionError, count_debug_section, read_debug_section};
use format::refusal::{Reason, Refusal, number_of};
use tables::row::Counts;

// No byte is told: no place that reading comes to is that far.
const NO_BYTE: u64 = 0xffff_ffff_ffff_ffff;

// The counts that were read, or are needed.
fn counted_as(number: u32, counts: Counts) -> Told
    ensures { result ≡ told_as number counts.rows counts.attrs no_byte }
{
    told_as(number, counts.rows as u64, counts.attrs as u64, NO_BYTE)
}

// A refusal with this byte; the counts hold what they held.
fn refused_with(why: Refusal, held: Results, byte: u64) -> Told
    ensures { result ≡ refused_as why (results held.first held.second byte) }
{
    let results = Results {
        first: held.first,
        second: held.second,
        third: byte,
    };
    refused_as(why, results)
}

#[tactic(auto, unfolding(crate::specs::Crossing::counts_told, entries::specs::Section::said_count))]
fn count_told(answer: Result<Counts, CountError>, held: Results) -> Told
    ensures { result ≡ counts_told held (said_count answer) }
{
    match answer {
        Ok(counts) => counted_as(0, counts),
        Err(CountError::Refused(why)) => refused_with(why, held, NO_BYTE),
        Err(CountError::Unread { why, byte }) => refused_with(why, held, byte),
    }
}

#[tactic(auto, unfolding(crate::specs::Crossing::counts_told, entries::specs::Section::said_section))]
fn section_told(answer: Result<Counts, SectionError>, held: Results) -> Told
    ensures { result ≡ counts_told held (said_section answer) }
{
    match answer {
        Ok(counts) => counted_as(0, counts),
        Err(SectionError::Refused(why)) => refused_with(why, held, NO_BYTE),
        Err(SectionError::Unread { why, byte }) => refused_with(why, held, byte),
        Err(SectionError::Room(counts)) => counted_as(number_of(Reason::Room), counts),
    }
}

// `count_debug_section` of `entries`.
#[unsafe(no_mangle)]
pub extern "C" fn capbeacon_count_debug_section(
    s: &[u8],
    endian: u32,
    erased: u32,
    producer: u32,
    global_ref: u16,
    mangled: u16,
    overlay_name: u16,
    overlay_id: u16,
    vendors: &[u16],
    sizes: &[u32],
    place: &mut u64,
    row_count: &mut u64,
    attr_count: &mut u64,
    byte: &mut u64,
) -> u32
    ensures { SaysThree (counts_told (results row_count.old attr_count.old 0)
        (count_debug_section (settings_from endian erased producer global_ref mangled overlay_name overlay_id)
        vendors.now sizes.now s.now)) result place.new row_count.new attr_count.new
        byte.new }
{
    let settings = settings_from(
        endian,
        erased,
        producer,
        global_ref,
        mangled,
        overlay_name,
        overlay_id,
    );
    let held = Results {
        first: *row_count,
        second: *attr_count,
        third: 0,
    };
    let counted = count_told(count_debug_section(s, settings, vendors, sizes), held);
    *place = counted.place;
    *row_count = counted.first;
    *attr_count = counted.second;
    *byte = counted.third;
    counted.number
}

// `read_debug_section` of `entries`; `rows` and `attrs` are the lent tables.
#[unsafe(no_mangle)]
pub extern "C" fn capbeacon_read_debug_section(
    s: &[u8],
    endian: u32,
    erased: u32,
    producer: u32,
    global_ref: u16,
    mangled: u16,
    overlay_name: u16,
    overlay_id: u16,
    vendors: &[u16],
    sizes: &[u32],
    rows: &mut [u32],
    attrs: &mut [u32],
    place: &mut u64,
    row_count: &mut u64,
    attr_count: &mut u64,
    byte: &mut u64,
) -> u32
    ensures { SectionCrosses (results row_count.old attr_count.old 0)
        (read_debug_section (settings_from endian erased producer global_ref mangled overlay_name overlay_id) vendors.now
        sizes.now s.now rows.old attrs.old) result place.new row_count.new
        attr_count.new byte.new rows.new attrs.new }
{
    let settings = settings_from(
        endian,
        erased,
        producer,
        global_ref,
        mangled,
        overlay_name,
        overlay_id,
    );
    let held = Results {
        first: *row_count,
        second: *attr_count,
        third: 0,
    };
    let told = section_told(
        read_debug_section(s, settings, vendors, sizes, rows, attrs),
        held,
    );
    *place = told.place;
    *row_count = told.first;
    *attr_count = told.second;
    *byte = told.third;
    told.number
}
