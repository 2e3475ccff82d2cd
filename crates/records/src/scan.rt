// The scan over a row's attributes, one for all records: each attribute must be one that the record takes (13), and say what it means (17, 18).
ghost use Rattle.std.specs.Prelude.{◌≡◌, ◌-◌};
ghost use Rattle.format.specs.Said.{said};
ghost use Rattle.tables.specs.Inside.Keyed.{refused_at};
ghost use Rattle.records.specs.Scan.{run_of, attribute_at, is_type, location_of, fault_of, content_fault, attribute_fault, fault_at, faults_from};
ghost use Rattle.records.specs.Inside.Scan.{scan_from, Plain};

use crate::taken::{Record, is_special, takes};
use attributes::decode::{Endians, block2};
use blocks::location::{process_address, process_offset};
use blocks::types::process_type;
use format::attribute_kind::{FUND_TYPE, LOCATION, MOD_FUND_TYPE, MOD_UD_TYPE, USER_DEF_TYPE};
use format::refusal::{Reason, Refusal};
use format::settings::Roles;
use numbers::Endian;
use tables::row::{attr_at, ends_of, row_at};

// A row's attributes: where they begin, how many there are; its key; the endiannesses.
#[derive(Clone, Copy)]
pub struct Run {
    pub first: u32,
    pub count: u32,
    pub key: u32,
    pub ends: Endians,
}

// An attribute's number, which has 16 bits, and the place of its value.
#[derive(Clone, Copy)]
pub struct Attribute {
    pub number: u16,
    pub value: usize,
}

// Row i's attributes, its key and its endiannesses.
#[tactic(auto, unfolding(crate::specs::Scan::run_of))]
pub fn run_of(e: Endian, rows: &[u32], i: usize) -> Run
    ensures { result ≡ run_of e rows.now i }
{
    let row = row_at(rows, i);
    Run {
        first: row.first,
        count: row.count,
        key: row.key,
        ends: ends_of(e, rows, i),
    }
}

// Attribute k of the table.
#[tactic(auto, unfolding(crate::specs::Scan::attribute_at))]
pub fn attribute_at(attrs: &[u32], k: usize) -> Attribute
    ensures { result ≡ attribute_at attrs.now k }
{
    let attr = attr_at(attrs, k);
    Attribute {
        number: (attr.number % 65536) as u16,
        value: attr.value as usize,
    }
}

// A refusal at a row.
pub fn refused(reason: Reason, key: u32) -> Refusal
    ensures { result ≡ refused_at key reason }
{
    Refusal {
        reason,
        place: u64::from(key),
    }
}

// The same refusal, at the row.
pub fn placed(why: Refusal, key: u32) -> Refusal
    ensures { result ≡ refused_at key why.reason }
{
    refused(why.reason, key)
}

#[tactic(auto, unfolding(crate::specs::Scan::is_type))]
pub(crate) fn is_type(number: u16) -> bool
    ensures { result ≡ is_type number }
{
    matches!(
        number,
        FUND_TYPE | MOD_FUND_TYPE | USER_DEF_TYPE | MOD_UD_TYPE
    )
}

// A value that can be read, whatever it says; else why not, placed at the row.
#[tactic(auto, using(crate::proofs::Laws::Steps::steps), unfolding(crate::specs::Scan::fault_of))]
fn content_of<T: Copy>(key: u32, read: Result<T, Refusal>) -> Result<(), Refusal>
    ensures { said result ≡ fault_of key (said read) }
{
    match read {
        Ok(_) => Ok(()),
        Err(why) => Err(placed(why, key)),
    }
}

// A location is an address for a variable, an offset for all others.
#[tactic(auto, unfolding(crate::specs::Scan::location_of))]
fn location_fault(which: Record, block: &[u8], e: Endian, key: u32) -> Result<(), Refusal>
    ensures { said result ≡ fault_of key (location_of which e block.now) }
{
    match which {
        Record::Variable => content_of(key, process_address(block, e)),
        _ => content_of(key, process_offset(block, e)),
    }
}

// What the value says: a type, a location, or nothing that could be wrong.
#[tactic(auto, using(crate::proofs::Laws::Steps::steps), unfolding(crate::specs::Scan::content_fault))]
fn content_fault(s: &[u8], which: Record, run: Run, attribute: Attribute) -> Result<(), Refusal>
    ensures { said result ≡ content_fault which run s.now attribute }
{
    let Attribute { number, value } = attribute;
    if is_type(number) {
        content_of(run.key, process_type(s, number, value, run.ends))
    } else if number == LOCATION {
        location_fault(which, block2(s, value, run.ends), run.ends.section, run.key)
    } else {
        Ok(())
    }
}

// An attribute of a record.
#[tactic(auto, using(crate::proofs::Laws::Steps::steps), unfolding(crate::specs::Scan::attribute_fault))]
pub(crate) fn attribute_fault(
    s: &[u8],
    roles: Roles,
    which: Record,
    run: Run,
    attribute: Attribute,
) -> Result<(), Refusal>
    ensures { said result ≡ attribute_fault roles which run s.now attribute }
{
    if takes(roles, which, attribute.number) {
        content_fault(s, which, run, attribute)
    } else {
        Err(refused(Reason::Extra, run.key))
    }
}

// The attributes from `from` on, up to the next that is the record's own business.
#[tactic(auto, using(crate::proofs::Laws::Steps::steps, crate::proofs::Laws::Scan::scans))]
pub(crate) fn scan_from(
    s: &[u8],
    roles: Roles,
    attrs: &[u32],
    which: Record,
    run: Run,
    from: usize,
) -> Result<usize, Refusal>
    ensures { said result ≡ scan_from roles which run s.now attrs.now from (run.count - from) }
{
    let count = run.count as usize;
    for j in from..count {
        let attribute = attribute_at(attrs, run.first as usize + j);
        if is_special(which, attribute.number) {
            return Ok(j);
        }
        attribute_fault(s, roles, which, run, attribute)?;
    }
    Ok(count.max(from))
}

// All attributes of a record that reads none itself.
pub(crate) fn attributes_fault(
    s: &[u8],
    roles: Roles,
    attrs: &[u32],
    which: Record,
    run: Run,
) -> Result<(), Refusal>
    requires { Plain which }
    ensures { said result ≡ faults_from (fault_at roles which run s.now attrs.now) 0 run.count }
{
    scan_from(s, roles, attrs, which, run, 0)?;
    Ok(())
}
