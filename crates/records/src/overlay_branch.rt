// Overlay branches: the Rust's `process_overlay_branch`. They have no child test.
ghost use Rattle.std.specs.Prelude.{◌≡◌};
ghost use Rattle.format.specs.Said.{said};
ghost use Rattle.tables.specs.Table.{table_of};
ghost use Rattle.records.specs.OverlayBranch.{overlay_fields, overlay_at, process_overlay_branch};

use crate::fields::{Text, last_word, needed, needed_word, role_name, role_word};
use crate::front::head_fault;
use crate::scan::{Run, run_of};
use crate::taken::Record;
use format::attribute_kind::{HIGH_PC, LOW_PC, MEMBER};
use format::refusal::Refusal;
use format::settings::Roles;
use tables::keyed::row_of;
use tables::table::Table;

#[derive(Clone, Copy)]
pub struct OverlayBranch {
    pub name: Text,
    pub id: u32,
    pub start_address: u32,
    pub end_address: u32,
    pub compile_unit: Option<u32>,
}

#[tactic(auto, using(crate::proofs::Laws::Steps::steps), unfolding(crate::specs::OverlayBranch::overlay_fields))]
fn overlay_fields(s: &[u8], attrs: &[u32], run: Run, roles: Roles) -> Result<OverlayBranch, Refusal>
    ensures { said result ≡ overlay_fields s.now attrs.now run roles }
{
    let name = needed(role_name(s, attrs, run, roles.overlay_name), run.key)?;
    let id = needed(role_word(s, attrs, run, roles.overlay_id), run.key)?;
    let start_address = needed_word(s, attrs, run, LOW_PC)?;
    let end_address = needed_word(s, attrs, run, HIGH_PC)?;
    Ok(OverlayBranch {
        name,
        id,
        start_address,
        end_address,
        compile_unit: last_word(s, attrs, run, MEMBER),
    })
}

// The overlay branch at row i of a tested table.
#[tactic(auto, using(crate::proofs::Laws::Steps::steps), unfolding(crate::specs::OverlayBranch::overlay_at, crate::specs::Taken::special))]
fn overlay_at(t: &Table<'_, '_>, i: usize) -> Result<OverlayBranch, Refusal>
    ensures { said result ≡ overlay_at t.now.settings t.now.section.now t.now.rows.now t.now.attrs.now i }
{
    head_fault(t, i, Record::OverlayBranch)?;
    let run = run_of(t.settings.endian, t.rows, i);
    overlay_fields(t.section, t.attrs, run, t.settings.roles)
}

// The overlay branch of a key.
#[tactic(auto, using(crate::proofs::Laws::Steps::steps), unfolding(crate::specs::OverlayBranch::process_overlay_branch))]
pub fn process_overlay_branch(t: &Table<'_, '_>, key: u32) -> Result<OverlayBranch, Refusal>
    ensures { said result ≡ process_overlay_branch (table_of t.now) key }
{
    let i = row_of(t, key)?;
    overlay_at(t, i)
}
