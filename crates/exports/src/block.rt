// What a block alone says. One result: the offset; at a refusal it holds what it held.
ghost use Rattle.format.specs.Said.{said};
ghost use Rattle.std.specs.Prelude.{◌≡◌};
ghost use Rattle.blocks.specs.Location.{process_offset};
ghost use Rattle.exports.specs.Crossing.{results, endian_from, number_told, SaysOne};

use crate::settings::endian_from;
use crate::told::{Results, Told, refused_as, told_as};
use blocks::location::process_offset;
use format::refusal::Refusal;

#[tactic(auto, unfolding(crate::specs::Crossing::number_told, crate::specs::Crossing::crossed, crate::specs::Crossing::in_order, format::specs::Said::said))]
fn offset_told(answer: Result<u32, Refusal>, held: Results) -> Told
    ensures { result ≡ number_told held (said answer) }
{
    match answer {
        Ok(offset) => told_as(0, offset as u64, 0, 0),
        Err(why) => refused_as(why, held),
    }
}

// `process_offset` of `blocks`; a refusal's place is 0.
#[unsafe(no_mangle)]
pub extern "C" fn capbeacon_process_offset(
    block: &[u8],
    endian: u32,
    place: &mut u64,
    offset: &mut u64,
) -> u32
    ensures { SaysOne (number_told (results offset.old 0 0) (process_offset (endian_from endian) block.now)) result place.new
        offset.new }
{
    let held = Results {
        first: *offset,
        second: 0,
        third: 0,
    };
    let told = offset_told(process_offset(block, endian_from(endian)), held);
    *place = told.place;
    *offset = told.first;
    told.number
}
