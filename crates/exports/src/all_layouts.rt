// All layouts of a table. Results: how many structures and classes and how many members were given or, with 8, are to be; at any other refusal they hold
// what they held.
ghost use Rattle.std.specs.Prelude.{◌≡◌};
ghost use Rattle.tables.specs.Table.{table};
ghost use Rattle.layout.specs.All.{said_all_layouts, all_layouts};
ghost use Rattle.exports.specs.Crossing.{results, settings_from, counts_from, layouts_told, LayoutsCross};
ghost use Rattle.exports.specs.Inside.Told.{told_as};

use crate::settings::{counts_from, settings_from};
use crate::told::{Results, Told, refused_as, told_as};
use format::refusal::{Reason, Unfilled, number_of};
use layout::all::{LayoutCounts, all_layouts};
use tables::table::Table;

// The counts that were given, or are needed.
fn layouts_as(number: u32, counts: LayoutCounts) -> Told
    ensures { result ≡ told_as number counts.structures counts.members 0 }
{
    told_as(number, counts.structures as u64, counts.members as u64, 0)
}

#[tactic(auto, unfolding(crate::specs::Crossing::layouts_told, crate::specs::Crossing::crossed, crate::specs::Crossing::in_order, layout::specs::All::said_all_layouts))]
fn layouts_told(answer: Result<LayoutCounts, Unfilled<LayoutCounts>>, held: Results) -> Told
    ensures { result ≡ layouts_told held (said_all_layouts answer) }
{
    match answer {
        Ok(counts) => layouts_as(0, counts),
        Err(Unfilled::Refused(why)) => refused_as(why, held),
        Err(Unfilled::Room(counts)) => layouts_as(number_of(Reason::Room), counts),
    }
}

// `all_layouts` of `sizes`; `structures` has eight words for each structure or class: its row, 0 or a refusal's number, its size, the refusal's place, its
// first member and how many, place and length of its name; `members` four for each member, as in `capbeacon_layout_of_key`.
#[unsafe(no_mangle)]
pub extern "C" fn capbeacon_all_layouts(
    s: &[u8],
    endian: u32,
    erased: u32,
    producer: u32,
    global_ref: u16,
    mangled: u16,
    overlay_name: u16,
    overlay_id: u16,
    vendors: &[u16],
    sizes: &[u32],
    rows: &[u32],
    attrs: &[u32],
    row_count: u64,
    attr_count: u64,
    structures: &mut [u64],
    members: &mut [u64],
    place: &mut u64,
    structure_count: &mut u64,
    member_count: &mut u64,
) -> u32
    ensures { LayoutsCross (results structure_count.old member_count.old 0)
        (all_layouts (table s.now (settings_from endian erased producer global_ref mangled overlay_name overlay_id)
        vendors.now sizes.now rows.now attrs.now (counts_from row_count attr_count))
        structures.old members.old) result place.new structure_count.new member_count.new
        structures.new members.new }
{
    let settings = settings_from(
        endian,
        erased,
        producer,
        global_ref,
        mangled,
        overlay_name,
        overlay_id,
    );
    let t = Table {
        section: s,
        settings,
        vendors,
        sizes,
        rows,
        attrs,
        counts: counts_from(row_count, attr_count),
    };
    let held = Results {
        first: *structure_count,
        second: *member_count,
        third: 0,
    };
    let told = layouts_told(all_layouts(&t, structures, members), held);
    *place = told.place;
    *structure_count = told.first;
    *member_count = told.second;
    told.number
}
