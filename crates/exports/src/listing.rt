// The tree listing. One result: how many rows were listed or, with 8, are to be; at any other refusal it holds what it held.
ghost use Rattle.format.specs.Said.{said_counted};
ghost use Rattle.std.specs.Prelude.{◌≡◌};
ghost use Rattle.tables.specs.Table.{table};
ghost use Rattle.tree.specs.Tree.{list_tree};
ghost use Rattle.exports.specs.Crossing.{results, settings_from, counts_from, number_told, TreeCrosses};

use crate::settings::{counts_from, settings_from};
use crate::told::{Results, Told, refused_as, told_as};
use format::refusal::{Reason, Unfilled, number_of};
use tables::table::Table;
use tree::listing::list_tree;

#[tactic(auto, unfolding(crate::specs::Crossing::number_told, crate::specs::Crossing::crossed, crate::specs::Crossing::in_order, format::specs::Said::said_counted))]
fn tree_told(answer: Result<usize, Unfilled<usize>>, held: Results) -> Told
    ensures { result ≡ number_told held (said_counted answer) }
{
    match answer {
        Ok(n) => told_as(0, n as u64, 0, 0),
        Err(Unfilled::Refused(why)) => refused_as(why, held),
        Err(Unfilled::Room(n)) => told_as(number_of(Reason::Room), n as u64, 0, 0),
    }
}

// `list_tree` of `tree`; `room` has two words for each row, its depth and its parent (a row number plus one, 0 for none).
#[unsafe(no_mangle)]
pub extern "C" fn capbeacon_list_tree(
    s: &[u8],
    endian: u32,
    erased: u32,
    producer: u32,
    global_ref: u16,
    mangled: u16,
    overlay_name: u16,
    overlay_id: u16,
    vendors: &[u16],
    sizes: &[u32],
    rows: &[u32],
    attrs: &[u32],
    row_count: u64,
    attr_count: u64,
    room: &mut [u32],
    place: &mut u64,
    listed: &mut u64,
) -> u32
    ensures { TreeCrosses (results listed.old 0 0)
        (list_tree (table s.now (settings_from endian erased producer global_ref mangled overlay_name overlay_id)
        vendors.now sizes.now rows.now attrs.now (counts_from row_count attr_count))
        room.old) result place.new listed.new room.new }
{
    let settings = settings_from(
        endian,
        erased,
        producer,
        global_ref,
        mangled,
        overlay_name,
        overlay_id,
    );
    let t = Table {
        section: s,
        settings,
        vendors,
        sizes,
        rows,
        attrs,
        counts: counts_from(row_count, attr_count),
    };
    let held = Results {
        first: *listed,
        second: 0,
        third: 0,
    };
    let told = tree_told(list_tree(&t, room), held);
    *place = told.place;
    *listed = told.first;
    told.number
}
