// Typedefs: the Rust's `process_typedef_tag`. A specification fills what is missing at that point, and later attributes overwrite; so the last name of the row
// itself counts, and without one that of its first specification.
ghost use Rattle.std.specs.Prelude.{◌≡◌};
ghost use Rattle.format.specs.Said.{said};
ghost use Rattle.tables.specs.Table.{table_of, table_rows};
ghost use Rattle.links.specs.Inside.Links.{RowsHold};
ghost use Rattle.links.specs.Inside.Children.{Asked};
ghost use Rattle.records.specs.Scan.{run_of};
ghost use Rattle.records.specs.Typedef.{type_needed, specified_by, specified, typedef_fields, typedef_end, typedef_run, typedef_at, process_typedef_tag};
ghost use Rattle.records.specs.Inside.Typedef.{said_pause, first_filling, typedef_name, typedef_type, known_of, pause_from};

use crate::fields::{Sought, Text, last_from, last_name, needed, type_by};
use crate::front::{childless_fault, kind_fault};
use crate::scan::{Run, attribute_at, attribute_fault, refused, run_of, scan_from};
use crate::taken::Record;
use attributes::decode::reference;
use blocks::types::Type;
use format::attribute_kind::NAME;
use format::limits::SPECIFICATION_LIMIT;
use format::refusal::{Reason, Refusal};
use tables::find::find_row;
use tables::keyed::row_of;
use tables::table::Table;

#[derive(Clone, Copy)]
pub struct Typedef {
    pub name: Text,
    pub of: Type,
}

// Where the attributes of a typedef come to next: a specification at `at`, which names a typedef's row; or the end.
#[derive(Clone, Copy)]
pub struct Pause {
    pub at: usize,
    pub row: usize,
}

// The first specification fills; later ones find nothing missing.
#[tactic(auto, unfolding(crate::specs::Inside::Typedef::first_filling))]
fn first_filling(filling: Option<Typedef>, next: Typedef) -> Option<Typedef>
    ensures { result ≡ first_filling filling next }
{
    filling.or(Some(next))
}

#[tactic(auto, unfolding(crate::specs::Inside::Typedef::typedef_name))]
fn typedef_name(own: Option<Text>, filling: Option<Typedef>) -> Option<Text>
    ensures { result ≡ typedef_name own filling }
{
    own.or(filling.map(|first| first.name))
}

#[tactic(auto, using(crate::proofs::Laws::Steps::steps), unfolding(crate::specs::Typedef::type_needed, crate::specs::Inside::Typedef::typedef_type))]
fn typedef_type(
    s: &[u8],
    attrs: &[u32],
    run: Run,
    own: Option<usize>,
    filling: Option<Typedef>,
) -> Result<Type, Refusal>
    ensures { said result ≡ type_needed run.key (typedef_type s.now attrs.now run own filling) }
{
    if own.is_some() {
        return type_by(s, attrs, run, own);
    }
    Ok(needed(filling, run.key)?.of)
}

#[tactic(auto, using(crate::proofs::Laws::Steps::steps, crate::proofs::Laws::Typedef::known), unfolding(crate::specs::Typedef::typedef_fields))]
fn typedef_fields(
    s: &[u8],
    attrs: &[u32],
    run: Run,
    filling: Option<Typedef>,
) -> Result<Typedef, Refusal>
    ensures { said result ≡ typedef_fields run.key (known_of s.now attrs.now run filling) }
{
    let own = last_name(s, attrs, run, NAME);
    let name = needed(typedef_name(own, filling), run.key)?;
    let own = last_from(attrs, run.first, run.count, Sought::Type);
    let of = typedef_type(s, attrs, run, own, filling)?;
    Ok(Typedef { name, of })
}

// After the attributes: no children, then name and type.
#[tactic(auto, using(crate::proofs::Laws::Steps::steps), unfolding(crate::specs::Typedef::typedef_end, crate::specs::Scan::run_of))]
fn typedef_end(t: &Table<'_, '_>, i: usize, filling: Option<Typedef>) -> Result<Typedef, Refusal>
    requires { Asked t.now.rows.now t.now.counts.rows i }
    ensures { said result ≡ typedef_end t.now.settings (table_rows (table_of t.now)) i
        (known_of t.now.section.now t.now.attrs.now (run_of t.now.settings.endian t.now.rows.now i) filling) }
{
    childless_fault(t, i)?;
    let run = run_of(t.settings.endian, t.rows, i);
    typedef_fields(t.section, t.attrs, run, filling)
}

// A specification must name a typedef's row: 11, 10 past the limit, 12.
#[tactic(auto, using(crate::proofs::Laws::Steps::steps), unfolding(crate::specs::Typedef::specified_by, tables::specs::Keyed::found_row))]
fn specified_by(t: &Table<'_, '_>, levels: usize, key: u32) -> Result<usize, Refusal>
    requires { RowsHold t.now.rows.now t.now.counts.rows }
    ensures { said result ≡ specified_by t.now.settings t.now.rows.now t.now.counts.rows levels key }
{
    let row = find_row(t.rows, t.counts.rows, key).ok_or(refused(Reason::Entry, key))?;
    if levels == 0 {
        return Err(refused(Reason::Depth, key));
    }
    kind_fault(t, row, Record::Typedef)?;
    Ok(row)
}

// The specification that is attribute k of the run.
#[tactic(auto, using(crate::proofs::Laws::Steps::steps, crate::proofs::Laws::Typedef::references), unfolding(crate::specs::Typedef::specified, crate::specs::Scan::fault_at))]
fn specification_at(t: &Table<'_, '_>, run: Run, levels: usize, k: u32) -> Result<usize, Refusal>
    requires { RowsHold t.now.rows.now t.now.counts.rows }
    ensures { said result ≡ specified t.now.settings (table_rows (table_of t.now)) run levels k }
{
    let attribute = attribute_at(t.attrs, run.first as usize + k as usize);
    attribute_fault(t.section, t.settings.roles, Record::Typedef, run, attribute)?;
    let key = reference(t.section, attribute.value, run.ends).ok_or(refused(
        Reason::Block,
        run.key,
    ))?;
    specified_by(t, levels, key)
}

// The attributes from `from` on, up to the next specification.
#[tactic(auto, using(crate::proofs::Laws::Steps::steps, crate::proofs::Laws::Typedef::pauses), unfolding(crate::specs::Inside::Typedef::pause_from))]
fn pause_from(
    t: &Table<'_, '_>,
    run: Run,
    levels: usize,
    from: usize,
) -> Result<Option<Pause>, Refusal>
    requires { RowsHold t.now.rows.now t.now.counts.rows }
    ensures { said_pause result ≡ pause_from t.now.settings t.now.section.now t.now.rows.now t.now.attrs.now t.now.counts.rows run levels from }
{
    let at = scan_from(
        t.section,
        t.settings.roles,
        t.attrs,
        Record::Typedef,
        run,
        from,
    )?;
    if at >= run.count as usize {
        return Ok(None);
    }
    let row = specification_at(t, run, levels, at as u32)?;
    Ok(Some(Pause { at, row }))
}

// The typedef at row i, a Typedef row of a tested table, from where so many specifications may still be followed. Each is read whole.
fn typedef_run(t: &Table<'_, '_>, levels: usize, i: usize) -> Result<Typedef, Refusal>
    requires { Asked t.now.rows.now t.now.counts.rows i }
    ensures { said result ≡ typedef_run t.now.settings (table_rows (table_of t.now)) levels i }
{
    let run = run_of(t.settings.endian, t.rows, i);
    let mut filling = None;
    let mut j: usize = 0;
    while let Some(Pause { at, row }) = pause_from(t, run, levels, j)? {
        let next = typedef_run(t, levels - 1, row)?;
        filling = first_filling(filling, next);
        j = at + 1;
    }
    typedef_end(t, i, filling)
}

// The typedef at row i of a tested table.
#[tactic(auto, using(crate::proofs::Laws::Steps::steps), unfolding(crate::specs::Typedef::typedef_at))]
fn typedef_at(t: &Table<'_, '_>, i: usize) -> Result<Typedef, Refusal>
    requires { Asked t.now.rows.now t.now.counts.rows i }
    ensures { said result ≡ typedef_at t.now.settings (table_rows (table_of t.now)) i }
{
    kind_fault(t, i, Record::Typedef)?;
    typedef_run(t, SPECIFICATION_LIMIT, i)
}

// The typedef of a key.
#[tactic(auto, using(crate::proofs::Laws::Steps::steps), unfolding(crate::specs::Typedef::process_typedef_tag))]
pub fn process_typedef_tag(t: &Table<'_, '_>, key: u32) -> Result<Typedef, Refusal>
    ensures { said result ≡ process_typedef_tag (table_of t.now) key }
{
    let i = row_of(t, key)?;
    typedef_at(t, i)
}
