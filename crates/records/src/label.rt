// Labels: the Rust's `process_subroutine_label_tag`.
ghost use Rattle.std.specs.Prelude.{◌≡◌};
ghost use Rattle.format.specs.Said.{said};
ghost use Rattle.tables.specs.Table.{table_of, table_rows};
ghost use Rattle.links.specs.Inside.Children.{Asked};
ghost use Rattle.records.specs.Label.{label_fields, label_at, process_subroutine_label_tag};

use crate::fields::{Text, last_name, needed, needed_word};
use crate::front::front_fault;
use crate::scan::{Run, run_of};
use crate::taken::Record;
use format::attribute_kind::{LOW_PC, NAME};
use format::refusal::Refusal;
use tables::keyed::row_of;
use tables::table::Table;

#[derive(Clone, Copy)]
pub struct Label {
    pub name: Text,
    pub address: u32,
}

#[tactic(auto, using(crate::proofs::Laws::Steps::steps), unfolding(crate::specs::Label::label_fields))]
fn label_fields(s: &[u8], attrs: &[u32], run: Run) -> Result<Label, Refusal>
    ensures { said result ≡ label_fields s.now attrs.now run }
{
    let name = needed(last_name(s, attrs, run, NAME), run.key)?;
    let address = needed_word(s, attrs, run, LOW_PC)?;
    Ok(Label { name, address })
}

// The label at row i of a tested table.
#[tactic(auto, using(crate::proofs::Laws::Steps::steps), unfolding(crate::specs::Label::label_at, crate::specs::Taken::special))]
fn label_at(t: &Table<'_, '_>, i: usize) -> Result<Label, Refusal>
    requires { Asked t.now.rows.now t.now.counts.rows i }
    ensures { said result ≡ label_at t.now.settings (table_rows (table_of t.now)) i }
{
    front_fault(t, i, Record::Label)?;
    let run = run_of(t.settings.endian, t.rows, i);
    label_fields(t.section, t.attrs, run)
}

// The label of a key.
#[tactic(auto, using(crate::proofs::Laws::Steps::steps), unfolding(crate::specs::Label::process_subroutine_label_tag))]
pub fn process_subroutine_label_tag(t: &Table<'_, '_>, key: u32) -> Result<Label, Refusal>
    ensures { said result ≡ process_subroutine_label_tag (table_of t.now) key }
{
    let i = row_of(t, key)?;
    label_at(t, i)
}
