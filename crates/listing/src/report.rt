// Where reading, listing and writing come together: the whole text of the program's answer, in one page.
ghost use Rattle.std.specs.Prelude.{◌≡◌, ◌≤◌};
ghost use Rattle.format.specs.Said.{said_counted};
ghost use Rattle.lent.specs.Outcome.{Given, BothGiven};
ghost use Rattle.listing.specs.Text.{refusal_text, listing_text, Printed};
ghost use Rattle.format.specs.Refusal.{number_of};
ghost use Rattle.entries.specs.Section.{said_section};
ghost use Rattle.listing.specs.Inside.Report.{FewRead, FewListed};
ghost use Rattle.listing.specs.Report.{listing_settings, listing_read, listing_tree, room_text, answer_text, tree_text, report_text, input_text};

use crate::line::write_refusal;
use crate::page::write_listing;
use entries::section::{SectionError, read_debug_section};
use format::refusal::{Reason, Refusal, Unfilled, number_of};
use format::settings::{Producer, Roles, Settings};
use numbers::Endian;
use tables::row::{ATTR_WIDTH, Counts, ROW_WIDTH};
use tables::table::Table;
use tree::listing::{PLACE_WIDTH, list_tree};

// Big-endian, erased entries out, no vendor numbers.
fn listing_settings() -> Settings
    ensures { result ≡ listing_settings }
{
    let roles = Roles {
        global_ref: 0,
        mangled: 0,
        overlay_name: 0,
        overlay_id: 0,
    };
    Settings {
        endian: Endian::Big,
        erased: false,
        producer: Producer::Other,
        roles,
    }
}

// The section into the tables.
#[tactic(auto, unfolding(crate::specs::Report::listing_sizes))]
fn read_tables(section: &[u8], rows: &mut [u32], attrs: &mut [u32]) -> Result<Counts, SectionError>
    ensures { BothGiven (listing_read section.now rows.old attrs.old) (said_section result) rows.new
        attrs.new }
{
    let vendors = [0u16; 0];
    let sizes = [4u32; 28];
    read_debug_section(section, listing_settings(), &vendors, &sizes, rows, attrs)
}

// A refusal's line, and nothing else.
fn report_refusal(why: Refusal, page: &mut [u8]) -> usize
    ensures { Printed (refusal_text (number_of why.reason) why.place) result page.old page.new }
{
    let reason = why.reason;
    write_refusal(page, 0, number_of(reason), why.place)
}

// Refusal 8, at 0.
fn report_room(page: &mut [u8]) -> usize
    ensures { Printed room_text result page.old page.new }
{
    report_refusal(
        Refusal {
            reason: Reason::Room,
            place: 0,
        },
        page,
    )
}

// The rows' places in the tree, into the room.
#[tactic(auto, unfolding(crate::specs::Report::listing_sizes))]
fn read_places(
    section: &[u8],
    rows: &[u32],
    attrs: &[u32],
    counts: Counts,
    room: &mut [u32],
) -> Result<usize, Unfilled<usize>>
    ensures { Given (listing_tree section.now rows.now attrs.now counts room.old) (said_counted result)
        room.new }
{
    let vendors = [0u16; 0];
    let sizes = [4u32; 28];
    let table = Table {
        section,
        settings: listing_settings(),
        vendors: &vendors,
        sizes: &sizes,
        rows,
        attrs,
        counts,
    };
    list_tree(&table, room)
}

// The lines of what the tree listing answered.
fn report_places(
    answer: Result<usize, Unfilled<usize>>,
    rows: &[u32],
    room: &[u32],
    page: &mut [u8],
) -> usize
    requires { FewListed (said_counted answer) }
    ensures { Printed (answer_text (listing_text rows.now room.now) (said_counted answer)) result page.old page.new }
{
    match answer {
        Ok(n) => write_listing(rows, room, n, page),
        Err(Unfilled::Refused(why)) => report_refusal(why, page),
        Err(Unfilled::Room(_)) => report_room(page),
    }
}

// The lines of tables that were read, with room for the places of 1,024 rows.
fn report_tree(
    section: &[u8],
    rows: &[u32],
    attrs: &[u32],
    counts: Counts,
    page: &mut [u8],
) -> usize
    requires { counts.rows ≤ 1024 }
    ensures { Printed (tree_text section.now rows.now attrs.now counts) result page.old page.new }
{
    let mut room = [0u32; 1024 * PLACE_WIDTH];
    let answer = read_places(section, rows, attrs, counts, &mut room);
    report_places(answer, rows, &room, page)
}

// The lines of what reading answered.
fn report_answer(
    answer: Result<Counts, SectionError>,
    section: &[u8],
    rows: &[u32],
    attrs: &[u32],
    page: &mut [u8],
) -> usize
    requires { FewRead (said_section answer) }
    ensures { Printed (answer_text (tree_text section.now rows.now attrs.now) (said_section answer)) result page.old
        page.new }
{
    match answer {
        Ok(counts) => report_tree(section, rows, attrs, counts, page),
        Err(SectionError::Refused(why)) => report_refusal(why, page),
        // Document 01's line has no byte.
        Err(SectionError::Unread { why, byte: _ }) => report_refusal(why, page),
        Err(SectionError::Room(_)) => report_room(page),
    }
}

// A section's lines, with room for 1,024 rows and 4,096 attributes.
pub fn report(section: &[u8], page: &mut [u8]) -> usize
    ensures { Printed (report_text section.now) result page.old page.new }
{
    let mut rows = [0u32; 1024 * ROW_WIDTH];
    let mut attrs = [0u32; 4096 * ATTR_WIDTH];
    let answer = read_tables(section, &mut rows, &mut attrs);
    report_answer(answer, section, &rows, &attrs, page)
}

// An input's lines: the section is all of it or, where it is longer, its beginning.
#[tactic(auto, unfolding(crate::specs::Report::input_text))]
pub fn report_input(section: &[u8], longer: bool, page: &mut [u8]) -> usize
    ensures { Printed (input_text longer section.now) result page.old page.new }
{
    if longer {
        report_room(page)
    } else {
        report(section, page)
    }
}
