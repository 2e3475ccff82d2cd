// Layouts. Results: the row, its size, how many members were laid or, with 8, are to be; with 8 row and size, at any other refusal all three hold what they held.
ghost use Rattle.format.specs.Said.{said_counted};
ghost use Rattle.std.specs.Prelude.{◌≡◌};
ghost use Rattle.tables.specs.Table.{table};
ghost use Rattle.layout.specs.Layout.{layout_of_key};
ghost use Rattle.exports.specs.Crossing.{results, settings_from, counts_from, layout_told, LayoutCrosses};
ghost use Rattle.exports.specs.Inside.Told.{told_as};

use crate::settings::{counts_from, settings_from};
use crate::told::{Results, Told, refused_as, told_as};
use format::refusal::{Reason, Unfilled, number_of};
use layout::one::{Layout, layout_of_key};
use tables::table::Table;

// A layout that is given.
fn laid_as(layout: Layout) -> Told
    ensures { result ≡ told_as 0 layout.row layout.size layout.members }
{
    told_as(
        0,
        layout.row as u64,
        layout.size as u64,
        layout.members as u64,
    )
}

// With 8 only how many members there are; row and size hold what they held.
#[tactic(auto, unfolding(crate::specs::Crossing::layout_told, crate::specs::Crossing::crossed, format::specs::Said::said_counted))]
fn layout_told(answer: Result<Layout, Unfilled<usize>>, held: Results) -> Told
    ensures { result ≡ layout_told held (said_counted answer) }
{
    match answer {
        Ok(layout) => laid_as(layout),
        Err(Unfilled::Refused(why)) => refused_as(why, held),
        Err(Unfilled::Room(members)) => told_as(
            number_of(Reason::Room),
            held.first,
            held.second,
            members as u64,
        ),
    }
}

// `layout_of_key` of `sizes`; `room` has four words for each member: offset, size, place and length of its name.
#[unsafe(no_mangle)]
pub extern "C" fn capbeacon_layout_of_key(
    s: &[u8],
    endian: u32,
    erased: u32,
    producer: u32,
    global_ref: u16,
    mangled: u16,
    overlay_name: u16,
    overlay_id: u16,
    vendors: &[u16],
    sizes: &[u32],
    rows: &[u32],
    attrs: &[u32],
    row_count: u64,
    attr_count: u64,
    key: u32,
    room: &mut [u64],
    place: &mut u64,
    row: &mut u64,
    size: &mut u64,
    members: &mut u64,
) -> u32
    ensures { LayoutCrosses (results row.old size.old members.old)
        (layout_of_key (table s.now (settings_from endian erased producer global_ref mangled overlay_name overlay_id)
        vendors.now sizes.now rows.now attrs.now (counts_from row_count attr_count)) key
        room.old) result place.new row.new size.new members.new room.new }
{
    let settings = settings_from(
        endian,
        erased,
        producer,
        global_ref,
        mangled,
        overlay_name,
        overlay_id,
    );
    let t = Table {
        section: s,
        settings,
        vendors,
        sizes,
        rows,
        attrs,
        counts: counts_from(row_count, attr_count),
    };
    let held = Results {
        first: *row,
        second: *size,
        third: *members,
    };
    let told = layout_told(layout_of_key(&t, key, room), held);
    *place = told.place;
    *row = told.first;
    *size = told.second;
    *members = told.third;
    told.number
}
