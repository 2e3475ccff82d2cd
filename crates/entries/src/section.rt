// The public calls: a section is read into lent tables, or only counted.
ghost use Rattle.entries.specs.Inside.Handed.{not_counted, not_read};
ghost use Rattle.std.specs.Prelude.{◌≡◌, ◌<◌, length};
ghost use Rattle.lent.specs.Outcome.{BothGiven};
ghost use Rattle.format.specs.Limits.{section_limit};
ghost use Rattle.entries.specs.Inside.Promise.{start, said_read, walked, WalkRead};
ghost use Rattle.tables.specs.Holds.{fitting};
ghost use Rattle.entries.specs.Section.{said_count, said_section, whole_walk, count_debug_section, read_debug_section};

use crate::entry::{EntryError, Mode, State};
use crate::source::Source;
use crate::walk::read_tags;
use format::limits::{ATTRIBUTE_LIMIT, ENTRY_LIMIT, ERASED_LIMIT, SECTION_LIMIT};
use format::refusal::{Reason, Refusal};
use format::settings::{Settings, settings_hold};
use tables::row::{ATTR_WIDTH, Counts, ROW_WIDTH};
use tables::unit::put_units;

// Why a section was not counted: a refusal; or one at an entry's key, with the first byte of the field that could not be read or was not known.
#[derive(Clone, Copy)]
pub enum CountError {
    Refused(Refusal),
    Unread { why: Refusal, byte: u64 },
}

// Why a section was not read: it could not be counted; or refusal 8, at 0, with the counts that are needed.
#[derive(Clone, Copy)]
pub enum SectionError {
    Refused(Refusal),
    Unread { why: Refusal, byte: u64 },
    Room(Counts),
}

impl From<EntryError> for CountError {
    ghost from_gives = { λ why r. r ≡ not_counted why };

    #[tactic(auto, unfolding(crate::specs::Inside::Handed::not_counted))]
    fn from(why: EntryError) -> CountError {
        match why {
            EntryError::Nested(key) => CountError::Refused(Refusal {
                reason: Reason::Nested,
                place: key as u64,
            }),
            EntryError::Unread { why, key, byte } => CountError::Unread {
                why: Refusal {
                    reason: why,
                    place: key as u64,
                },
                byte: byte as u64,
            },
        }
    }
}

impl From<CountError> for SectionError {
    ghost from_gives = { λ why r. r ≡ not_read why };

    #[tactic(auto, unfolding(crate::specs::Inside::Handed::not_read))]
    fn from(why: CountError) -> SectionError {
        match why {
            CountError::Refused(why) => SectionError::Refused(why),
            CountError::Unread { why, byte } => SectionError::Unread { why, byte },
        }
    }
}

// The whole section into the tables, as far as it fits them.
#[tactic(auto, unfolding(crate::specs::Section::whole_walk))]
fn read_whole(
    s: &[u8],
    settings: Settings,
    vendors: &[u16],
    rows: &mut [u32],
    attrs: &mut [u32],
) -> Result<State, EntryError>
    requires { length s.now < section_limit }
    ensures { WalkRead start (whole_walk settings vendors.now s.now) result rows.old rows.new attrs.old
        attrs.new }
{
    let source = Source {
        section: s,
        vendors,
        erased: settings.erased,
        global: settings.roles.global_ref,
    };
    let mode = Mode {
        erased: false,
        endian: settings.endian,
    };
    let from = State {
        at: 0,
        rows: 0,
        attrs: 0,
    };
    read_tags(&source, rows, attrs, ERASED_LIMIT, mode, s.len(), from)
}

// The same into empty tables: it counts.
fn count_whole(s: &[u8], settings: Settings, vendors: &[u16]) -> Result<State, EntryError>
    requires { length s.now < section_limit }
    ensures { said_read result ≡ walked start (whole_walk settings vendors.now s.now) }
{
    let mut rows = [0u32; 0];
    let mut attrs = [0u32; 0];
    read_whole(s, settings, vendors, &mut rows, &mut attrs)
}

// A refusal of the whole section.
fn refused(reason: Reason) -> Result<Counts, CountError>
    ensures { result ≡ Err (CountError.Refused (record { reason = reason; place = 0 })) }
{
    Err(CountError::Refused(Refusal { reason, place: 0 }))
}

// How many rows and attributes the section has, whatever the limits; or refusal 1, 2, or one of 4 to 7.
pub fn count_debug_section(
    s: &[u8],
    settings: Settings,
    vendors: &[u16],
    sizes: &[u32],
) -> Result<Counts, CountError>
    ensures { said_count result ≡ count_debug_section settings vendors.now sizes.now s.now }
{
    if !settings_hold(settings, vendors, sizes) {
        return refused(Reason::Settings);
    }
    if s.len() >= SECTION_LIMIT {
        return refused(Reason::Long);
    }
    let state = count_whole(s, settings, vendors)?;
    Ok(Counts {
        rows: state.rows,
        attrs: state.attrs,
    })
}

// Are so many allowed, and do they fit tables of so many words?
#[tactic(auto, unfolding(tables::specs::Holds::fitting))]
fn fits_tables(counts: Counts, lent_rows: usize, lent_attrs: usize) -> bool
    ensures { result ≡ fitting counts lent_rows lent_attrs }
{
    counts.rows <= ENTRY_LIMIT
        && counts.rows * ROW_WIDTH <= lent_rows
        && counts.attrs <= ATTRIBUTE_LIMIT
        && counts.attrs * ATTR_WIDTH <= lent_attrs
}

// The section's rows and attributes into the lent tables; or a refusal, and the tables stay as they were.
pub fn read_debug_section(
    s: &[u8],
    settings: Settings,
    vendors: &[u16],
    sizes: &[u32],
    rows: &mut [u32],
    attrs: &mut [u32],
) -> Result<Counts, SectionError>
    ensures { BothGiven (read_debug_section settings vendors.now sizes.now s.now rows.old attrs.old)
        (said_section result) rows.new attrs.new }
{
    let counts = count_debug_section(s, settings, vendors, sizes)?;
    if fits_tables(counts, rows.len(), attrs.len()) {
        // What was counted is read.
        let _ = read_whole(s, settings, vendors, rows, attrs);
        put_units(rows, counts.rows);
        Ok(counts)
    } else {
        Err(SectionError::Room(counts))
    }
}
