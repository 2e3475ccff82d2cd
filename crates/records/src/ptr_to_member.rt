// Pointers to member: the Rust's `process_ptr_to_member_tag`.
ghost use Rattle.std.specs.Prelude.{◌≡◌};
ghost use Rattle.format.specs.Said.{said};
ghost use Rattle.tables.specs.Table.{table_of, table_rows};
ghost use Rattle.links.specs.Inside.Children.{Asked};
ghost use Rattle.records.specs.PtrToMember.{ptr_fields, ptr_at, process_ptr_to_member_tag};

use crate::fields::{last_type, needed_word};
use crate::front::front_fault;
use crate::scan::{Run, run_of};
use crate::taken::Record;
use blocks::types::Type;
use format::attribute_kind::CONTAINING_TYPE;
use format::refusal::Refusal;
use tables::keyed::row_of;
use tables::table::Table;

// The type that is pointed to, and the key of the type that contains it.
#[derive(Clone, Copy)]
pub struct PtrToMember {
    pub of: Type,
    pub containing: u32,
}

#[tactic(auto, using(crate::proofs::Laws::Steps::steps), unfolding(crate::specs::PtrToMember::ptr_fields))]
fn ptr_fields(s: &[u8], attrs: &[u32], run: Run) -> Result<PtrToMember, Refusal>
    ensures { said result ≡ ptr_fields s.now attrs.now run }
{
    let of = last_type(s, attrs, run)?;
    let containing = needed_word(s, attrs, run, CONTAINING_TYPE)?;
    Ok(PtrToMember { of, containing })
}

// The pointer to member at row i of a tested table.
#[tactic(auto, using(crate::proofs::Laws::Steps::steps), unfolding(crate::specs::PtrToMember::ptr_at, crate::specs::Taken::special))]
pub fn ptr_to_member_at(t: &Table<'_, '_>, i: usize) -> Result<PtrToMember, Refusal>
    requires { Asked t.now.rows.now t.now.counts.rows i }
    ensures { said result ≡ ptr_at t.now.settings (table_rows (table_of t.now)) i }
{
    front_fault(t, i, Record::PtrToMember)?;
    let run = run_of(t.settings.endian, t.rows, i);
    ptr_fields(t.section, t.attrs, run)
}

// The pointer to member of a key.
#[tactic(auto, using(crate::proofs::Laws::Steps::steps), unfolding(crate::specs::PtrToMember::process_ptr_to_member_tag))]
pub fn process_ptr_to_member_tag(t: &Table<'_, '_>, key: u32) -> Result<PtrToMember, Refusal>
    ensures { said result ≡ process_ptr_to_member_tag (table_of t.now) key }
{
    let i = row_of(t, key)?;
    ptr_to_member_at(t, i)
}
