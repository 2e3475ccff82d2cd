// Members: the Rust's `process_structure_member_tag`.
ghost use Rattle.std.specs.Prelude.{◌≡◌};
ghost use Rattle.format.specs.Said.{said};
ghost use Rattle.tables.specs.Table.{table_of, table_rows};
ghost use Rattle.links.specs.Inside.Children.{Asked};
ghost use Rattle.records.specs.Member.{bits_by, member_fields, member_at, process_structure_member_tag};

use crate::fields::{
    Text, Visibility, last_name, last_offset, last_type, last_visibility, last_word,
};
use crate::front::front_fault;
use crate::scan::{Run, refused, run_of};
use crate::taken::Record;
use blocks::types::Type;
use format::attribute_kind::{BIT_OFFSET, BIT_SIZE, BYTE_SIZE, NAME};
use format::refusal::{Reason, Refusal};
use tables::keyed::row_of;
use tables::table::Table;

// The bits of a bit field, if it is one.
#[derive(Clone, Copy)]
pub struct Bits {
    pub size: u32,
    pub offset: u32,
}

#[derive(Clone, Copy)]
pub struct Member {
    pub name: Option<Text>,
    pub of: Type,
    pub offset: u32,
    pub bits: Option<Bits>,
    pub visibility: Visibility,
    pub byte_size: Option<u32>,
}

// One bit attribute without the other is 15.
#[tactic(auto, using(crate::proofs::Laws::Steps::steps), unfolding(crate::specs::Member::bits_by))]
fn bits_by(size: Option<u32>, offset: Option<u32>, key: u32) -> Result<Option<Bits>, Refusal>
    ensures { said result ≡ bits_by key size offset }
{
    match (size, offset) {
        (Some(size), Some(offset)) => Ok(Some(Bits { size, offset })),
        (None, None) => Ok(None),
        _ => Err(refused(Reason::Missing, key)),
    }
}

#[tactic(auto, using(crate::proofs::Laws::Steps::steps), unfolding(crate::specs::Member::member_fields))]
fn member_fields(s: &[u8], attrs: &[u32], run: Run) -> Result<Member, Refusal>
    ensures { said result ≡ member_fields s.now attrs.now run }
{
    let of = last_type(s, attrs, run)?;
    let offset = last_offset(s, attrs, run)?;
    let size = last_word(s, attrs, run, BIT_SIZE);
    let place = last_word(s, attrs, run, BIT_OFFSET);
    let bits = bits_by(size, place, run.key)?;
    Ok(Member {
        name: last_name(s, attrs, run, NAME),
        of,
        offset,
        bits,
        visibility: last_visibility(attrs, run),
        byte_size: last_word(s, attrs, run, BYTE_SIZE),
    })
}

// The member at row i of a tested table.
#[tactic(auto, using(crate::proofs::Laws::Steps::steps), unfolding(crate::specs::Member::member_at, crate::specs::Taken::special))]
pub fn member_at(t: &Table<'_, '_>, i: usize) -> Result<Member, Refusal>
    requires { Asked t.now.rows.now t.now.counts.rows i }
    ensures { said result ≡ member_at t.now.settings (table_rows (table_of t.now)) i }
{
    front_fault(t, i, Record::Member)?;
    let run = run_of(t.settings.endian, t.rows, i);
    member_fields(t.section, t.attrs, run)
}

// The member of a key.
#[tactic(auto, using(crate::proofs::Laws::Steps::steps), unfolding(crate::specs::Member::process_structure_member_tag))]
pub fn process_structure_member_tag(t: &Table<'_, '_>, key: u32) -> Result<Member, Refusal>
    ensures { said result ≡ process_structure_member_tag (table_of t.now) key }
{
    let i = row_of(t, key)?;
    member_at(t, i)
}
