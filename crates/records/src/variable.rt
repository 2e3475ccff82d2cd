// Variables: the Rust's `process_variable_tag`.
ghost use Rattle.std.specs.Prelude.{◌≡◌};
ghost use Rattle.format.specs.Said.{said};
ghost use Rattle.tables.specs.Table.{table_of, table_rows};
ghost use Rattle.links.specs.Inside.Children.{Asked};
ghost use Rattle.records.specs.Variable.{variable_fields, variable_at, process_variable_tag};

use crate::fields::{Text, last_address, last_name, last_type, role_name};
use crate::front::front_fault;
use crate::scan::{Run, run_of};
use crate::taken::Record;
use blocks::types::Type;
use format::attribute_kind::NAME;
use format::refusal::Refusal;
use tables::keyed::row_of;
use tables::row::row_at;
use tables::table::Table;

#[derive(Clone, Copy)]
pub struct Variable {
    pub name: Option<Text>,
    pub mangled_name: Option<Text>,
    pub of: Type,
    pub address: Option<u32>,
    pub local: bool,
}

#[tactic(auto, using(crate::proofs::Laws::Steps::steps), unfolding(crate::specs::Variable::variable_fields))]
fn variable_fields(
    s: &[u8],
    attrs: &[u32],
    run: Run,
    role: u16,
    local: bool,
) -> Result<Variable, Refusal>
    ensures { said result ≡ variable_fields s.now attrs.now run role local }
{
    let of = last_type(s, attrs, run)?;
    Ok(Variable {
        name: last_name(s, attrs, run, NAME),
        mangled_name: role_name(s, attrs, run, role),
        of,
        address: last_address(s, attrs, run),
        local,
    })
}

// The variable at row i of a tested table.
#[tactic(auto, using(crate::proofs::Laws::Steps::steps), unfolding(crate::specs::Variable::variable_at, crate::specs::Taken::special))]
fn variable_at(t: &Table<'_, '_>, i: usize) -> Result<Variable, Refusal>
    requires { Asked t.now.rows.now t.now.counts.rows i }
    ensures { said result ≡ variable_at t.now.settings (table_rows (table_of t.now)) i }
{
    front_fault(t, i, Record::Variable)?;
    let run = run_of(t.settings.endian, t.rows, i);
    let row = row_at(t.rows, i);
    variable_fields(
        t.section,
        t.attrs,
        run,
        t.settings.roles.mangled,
        row.kind == 0x0c,
    )
}

// The variable of a key.
#[tactic(auto, using(crate::proofs::Laws::Steps::steps), unfolding(crate::specs::Variable::process_variable_tag))]
pub fn process_variable_tag(t: &Table<'_, '_>, key: u32) -> Result<Variable, Refusal>
    ensures { said result ≡ process_variable_tag (table_of t.now) key }
{
    let i = row_of(t, key)?;
    variable_at(t, i)
}
