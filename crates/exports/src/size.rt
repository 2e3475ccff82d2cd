// The size of a key's entry. One result: the size; at a refusal it holds what it held.
ghost use Rattle.format.specs.Said.{said};
ghost use Rattle.std.specs.Prelude.{◌≡◌};
ghost use Rattle.tables.specs.Table.{table};
ghost use Rattle.sizes.specs.Size.{size_of_key};
ghost use Rattle.exports.specs.Crossing.{results, settings_from, counts_from, number_told, SaysOne};

use crate::settings::{counts_from, settings_from};
use crate::told::{Results, Told, refused_as, told_as};
use format::refusal::Refusal;
use sizes::size::size_of_key;
use tables::table::Table;

#[tactic(auto, unfolding(crate::specs::Crossing::number_told, crate::specs::Crossing::crossed, crate::specs::Crossing::in_order, format::specs::Said::said))]
fn size_told(answer: Result<u32, Refusal>, held: Results) -> Told
    ensures { result ≡ number_told held (said answer) }
{
    match answer {
        Ok(size) => told_as(0, size as u64, 0, 0),
        Err(why) => refused_as(why, held),
    }
}

// `size_of_key` of `sizes`.
#[unsafe(no_mangle)]
pub extern "C" fn capbeacon_size_of_key(
    s: &[u8],
    endian: u32,
    erased: u32,
    producer: u32,
    global_ref: u16,
    mangled: u16,
    overlay_name: u16,
    overlay_id: u16,
    vendors: &[u16],
    sizes: &[u32],
    rows: &[u32],
    attrs: &[u32],
    row_count: u64,
    attr_count: u64,
    key: u32,
    place: &mut u64,
    size: &mut u64,
) -> u32
    ensures { SaysOne (number_told (results size.old 0 0)
        (size_of_key (table s.now (settings_from endian erased producer global_ref mangled overlay_name overlay_id)
        vendors.now sizes.now rows.now attrs.now (counts_from row_count attr_count)) key)) result
        place.new size.new }
{
    let settings = settings_from(
        endian,
        erased,
        producer,
        global_ref,
        mangled,
        overlay_name,
        overlay_id,
    );
    let t = Table {
        section: s,
        settings,
        vendors,
        sizes,
        rows,
        attrs,
        counts: counts_from(row_count, attr_count),
    };
    let held = Results {
        first: *size,
        second: 0,
        third: 0,
    };
    let told = size_told(size_of_key(&t, key), held);
    *place = told.place;
    *size = told.first;
    told.number
}
