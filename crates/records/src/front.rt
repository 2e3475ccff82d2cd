// What stands before the fields of a record: its row's kind (12), its attributes (13, 17, 18), and that it has no children (9, 16).
ghost use Rattle.std.specs.Prelude.{◌≡◌};
ghost use Rattle.format.specs.Said.{said};
ghost use Rattle.tables.specs.Table.{table_of, table_rows};
ghost use Rattle.links.specs.Links.{child_walk};
ghost use Rattle.links.specs.Inside.Children.{Asked};
ghost use Rattle.records.specs.Front.{is_mwcc, kind_taken, kind_fault, childless_fault, head_of, front_of};
ghost use Rattle.records.specs.Inside.Scan.{Plain};
ghost use Rattle.records.specs.Inside.Front.{PlainAt};

use crate::scan::{attributes_fault, refused, run_of};
use crate::taken::Record;
use format::refusal::{Reason, Refusal};
use format::settings::Producer;
use links::any_child::any_child;
use tables::row::row_at;
use tables::table::Table;

#[tactic(auto, unfolding(crate::specs::Front::is_mwcc))]
fn is_mwcc(producer: Producer) -> bool
    ensures { result ≡ is_mwcc producer }
{
    matches!(producer, Producer::Mwcc)
}

// The kinds of rows that a record takes. MWCC writes variables as typedefs too.
#[tactic(auto, unfolding(crate::specs::Front::kind_taken))]
fn kind_taken(producer: Producer, which: Record, kind: u32) -> bool
    ensures { result ≡ kind_taken producer which kind }
{
    match which {
        Record::Member => kind == 0x0d,
        Record::Union => kind == 0x17,
        Record::Enumeration => kind == 0x04,
        Record::Typedef => kind == 0x16,
        Record::Variable => { kind == 0x07 || kind == 0x0c || is_mwcc(producer) && kind == 0x16 }
        Record::Label => kind == 0x0a,
        Record::PtrToMember => kind == 0x1f,
        Record::OverlayBranch => kind == 0x4080,
    }
}

#[tactic(auto, using(crate::proofs::Laws::Steps::steps), unfolding(crate::specs::Front::kind_fault))]
pub(crate) fn kind_fault(t: &Table<'_, '_>, i: usize, which: Record) -> Result<(), Refusal>
    ensures { said result ≡ kind_fault t.now.settings t.now.rows.now which i }
{
    let row = row_at(t.rows, i);
    if kind_taken(t.settings.producer, which, row.kind) {
        Ok(())
    } else {
        Err(refused(Reason::Kind, row.key))
    }
}

// A record that allows no children: 9 where the walk never ends, whatever it meets; 16 where it meets one.
#[tactic(auto, using(crate::proofs::Laws::Steps::steps, crate::proofs::Laws::Front::children))]
pub(crate) fn childless_fault(t: &Table<'_, '_>, i: usize) -> Result<(), Refusal>
    requires { Asked t.now.rows.now t.now.counts.rows i }
    ensures { said result ≡ childless_fault t.now.rows.now i (child_walk (table_rows (table_of t.now)) i) }
{
    let row = row_at(t.rows, i);
    match any_child(t, i) {
        Some(true) => Err(refused(Reason::Child, row.key)),
        Some(false) => Ok(()),
        None => Err(refused(Reason::Link, row.key)),
    }
}

// Kind and attributes of a record that reads no attribute itself.
#[tactic(auto, using(crate::proofs::Laws::Steps::steps), unfolding(crate::specs::Front::head_of))]
pub(crate) fn head_fault(t: &Table<'_, '_>, i: usize, which: Record) -> Result<(), Refusal>
    requires { Plain which }
    ensures { said result ≡ head_of t.now.settings t.now.section.now t.now.rows.now t.now.attrs.now which i }
{
    kind_fault(t, i, which)?;
    let run = run_of(t.settings.endian, t.rows, i);
    attributes_fault(t.section, t.settings.roles, t.attrs, which, run)
}

// The same, and no children.
#[tactic(auto, using(crate::proofs::Laws::Steps::steps), unfolding(crate::specs::Front::front_of))]
pub(crate) fn front_fault(t: &Table<'_, '_>, i: usize, which: Record) -> Result<(), Refusal>
    requires { PlainAt which t.now.rows.now t.now.counts.rows i }
    ensures { said result ≡ front_of t.now.settings (table_rows (table_of t.now)) which i }
{
    head_fault(t, i, which)?;
    childless_fault(t, i)
}
