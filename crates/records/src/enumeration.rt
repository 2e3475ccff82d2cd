// Enumerations: the Rust's `process_enumeration_tag`.
ghost use Rattle.std.specs.Prelude.{◌≡◌, ◌<◌, length};
ghost use Rattle.lent.specs.Outcome.{BothGiven};
ghost use Rattle.format.specs.Limits.{section_limit};
ghost use Rattle.format.specs.Said.{said, said_counted};
ghost use Rattle.tables.specs.Table.{table_of, table_rows};
ghost use Rattle.links.specs.Inside.Children.{Asked};
ghost use Rattle.records.specs.Enumeration.{size_before, is_gcc, enumeration_sized, row_lists};
ghost use Rattle.records.specs.Enumeration.{enumeration_at, lists_from, enumeration_into, process_enumeration_tag};
ghost use Rattle.records.specs.Inside.Elements.{StoredFrom};
ghost use Rattle.records.specs.Inside.Enumeration.{Countable, one_list, AskedShort, enumeration_end, EnumerationStored};

use crate::elements::{Slots, list_width, read_list};
use crate::fields::{Sought, Text, last_from, last_name, needed_word, word_by};
use crate::front::{childless_fault, kind_fault};
use crate::scan::{Run, attribute_at, attribute_fault, run_of, scan_from};
use crate::taken::Record;
use attributes::decode::block4;
use format::attribute_kind::{BYTE_SIZE, NAME};
use format::refusal::{Refusal, Unfilled};
use format::settings::{Producer, Settings};
use tables::keyed::row_of;
use tables::row::attr_at;
use tables::table::Table;

#[derive(Clone, Copy)]
pub struct Enumeration {
    pub name: Option<Text>,
    pub byte_size: u32,
    pub members: usize,
}

#[tactic(auto, unfolding(crate::specs::Enumeration::is_gcc))]
fn is_gcc(producer: Producer) -> bool
    ensures { result ≡ is_gcc producer }
{
    matches!(producer, Producer::Gcc)
}

// The ByteSize last seen before attribute j.
#[tactic(auto, unfolding(crate::specs::Enumeration::size_before))]
fn size_before(s: &[u8], attrs: &[u32], run: Run, j: u32) -> Option<u32>
    ensures { result ≡ size_before s.now attrs.now run j }
{
    let found = last_from(attrs, run.first, j, Sought::Number(BYTE_SIZE));
    word_by(s, attrs, run, found)
}

// The list that is attribute j: elements from number `count` on.
fn list_at(
    s: &[u8],
    settings: Settings,
    attrs: &[u32],
    run: Run,
    slots: Slots,
    j: u32,
    count: usize,
    values: &mut [i32],
    names: &mut [u64],
) -> Result<usize, Refusal>
    requires { Countable s.now j count }
    ensures { StoredFrom (one_list settings s.now attrs.now run j) slots count result values.old values.new names.old names.new }
{
    let k = run.first as usize + j as usize;
    let attribute = attribute_at(attrs, k);
    attribute_fault(s, settings.roles, Record::Enumeration, run, attribute)?;
    let width = list_width(size_before(s, attrs, run, j));
    let at = attr_at(attrs, k).value as usize;
    let block = block4(s, at, run.ends);
    read_list(
        block,
        run.ends.section,
        width,
        at + 4,
        run.key,
        slots,
        count,
        values,
        names,
    )
}

// All attributes, the elements of the lists into the rooms as far as they fit.
fn read_lists(
    s: &[u8],
    settings: Settings,
    attrs: &[u32],
    run: Run,
    slots: Slots,
    values: &mut [i32],
    names: &mut [u64],
) -> Result<usize, Refusal>
    requires { length s.now < section_limit }
    ensures { StoredFrom (lists_from settings s.now attrs.now run 0 run.count) slots 0 result values.old values.new names.old names.new }
{
    let mut from = 0;
    let mut count = 0;
    loop {
        let at = scan_from(s, settings.roles, attrs, Record::Enumeration, run, from)?;
        if at >= run.count as usize {
            return Ok(count);
        }
        count = list_at(
            s, settings, attrs, run, slots, at as u32, count, values, names,
        )?;
        from = at + 1;
    }
}

#[tactic(auto, using(crate::proofs::Laws::Steps::steps), unfolding(crate::specs::Enumeration::enumeration_sized))]
fn enumeration_sized(
    s: &[u8],
    attrs: &[u32],
    run: Run,
    members: usize,
) -> Result<Enumeration, Refusal>
    ensures { said result ≡ enumeration_sized s.now attrs.now run members }
{
    let byte_size = needed_word(s, attrs, run, BYTE_SIZE)?;
    Ok(Enumeration {
        name: last_name(s, attrs, run, NAME),
        byte_size,
        members,
    })
}

// After the attributes: no children, then a ByteSize.
#[tactic(auto, using(crate::proofs::Laws::Steps::steps), unfolding(crate::specs::Inside::Enumeration::enumeration_end))]
fn enumeration_end(t: &Table<'_, '_>, i: usize, members: usize) -> Result<Enumeration, Refusal>
    requires { Asked t.now.rows.now t.now.counts.rows i }
    ensures { said result ≡ enumeration_end t.now.settings t.now.section.now t.now.rows.now t.now.attrs.now t.now.counts.rows i members }
{
    childless_fault(t, i)?;
    let run = run_of(t.settings.endian, t.rows, i);
    enumeration_sized(t.section, t.attrs, run, members)
}

// The enumeration at row i, its members into the rooms as far as they fit.
fn read_enumeration(
    t: &Table<'_, '_>,
    i: usize,
    slots: Slots,
    values: &mut [i32],
    names: &mut [u64],
) -> Result<Enumeration, Refusal>
    requires { AskedShort t.now.section.now t.now.rows.now t.now.counts.rows i }
    ensures { EnumerationStored (enumeration_at t.now.settings (table_rows (table_of t.now)) i)
        (row_lists t.now.settings (table_rows (table_of t.now)) i) slots result values.old values.new names.old names.new }
{
    kind_fault(t, i, Record::Enumeration)?;
    let run = run_of(t.settings.endian, t.rows, i);
    let members = read_lists(t.section, t.settings, t.attrs, run, slots, values, names)?;
    enumeration_end(t, i, members)
}

// The enumeration at row i of a tested table, with no room: all of it is read.
pub fn enumeration_at(t: &Table<'_, '_>, i: usize) -> Result<Enumeration, Refusal>
    requires { AskedShort t.now.section.now t.now.rows.now t.now.counts.rows i }
    ensures { said result ≡ enumeration_at t.now.settings (table_rows (table_of t.now)) i }
{
    let mut values = [0i32; 0];
    let mut names = [0u64; 0];
    let slots = Slots {
        reversed: false,
        total: 0,
    };
    read_enumeration(t, i, slots, &mut values, &mut names)
}

// Counted first, so that a refusal has written nothing.
#[tactic(auto, using(crate::proofs::Laws::Steps::steps), unfolding(crate::specs::Enumeration::enumeration_into))]
fn give_enumeration(
    t: &Table<'_, '_>,
    i: usize,
    values: &mut [i32],
    names: &mut [u64],
) -> Result<Enumeration, Unfilled<usize>>
    requires { AskedShort t.now.section.now t.now.rows.now t.now.counts.rows i }
    ensures { BothGiven (enumeration_into t.now.settings (table_rows (table_of t.now)) values.old names.old i)
        (said_counted result) values.new names.new }
{
    let found = enumeration_at(t, i)?;
    if found.members > values.len() || found.members > names.len() / 2 {
        return Err(Unfilled::Room(found.members));
    }
    let slots = Slots {
        reversed: is_gcc(t.settings.producer),
        total: found.members,
    };
    let _ = read_enumeration(t, i, slots, values, names);
    Ok(found)
}

// The enumeration of a key: its values into one room, place and length of its names into another; or a refusal, and the rooms stay as they were.
#[tactic(auto, using(crate::proofs::Laws::Steps::steps), unfolding(crate::specs::Enumeration::process_enumeration_tag))]
pub fn process_enumeration_tag(
    t: &Table<'_, '_>,
    key: u32,
    values: &mut [i32],
    names: &mut [u64],
) -> Result<Enumeration, Unfilled<usize>>
    ensures { BothGiven (process_enumeration_tag (table_of t.now) key values.old names.old) (said_counted result) values.new names.new }
{
    let i = row_of(t, key)?;
    give_enumeration(t, i, values, names)
}
