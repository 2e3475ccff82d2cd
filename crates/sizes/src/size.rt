// The size of a type and of the entry it names: they call each other, and the levels that are left fall from an entry to those it names; nothing but the levels
// bounds the calls.
ghost use Rattle.tables.specs.Table.{table_of, table_rows};
ghost use Rattle.format.specs.Said.{said};
ghost use Rattle.std.specs.Prelude.{◌≡◌};
ghost use Rattle.records.specs.Inside.Enumeration.{AskedShort};
ghost use Rattle.sizes.specs.Size.{fundamental_size, row_size, entry_size, type_size, size_of_key, size_of_type};
ghost use Rattle.sizes.specs.Inside.Size.{TableReady, grown, array_product};

pub use crate::many::{member_added, row_size};
use crate::prepare::subscript_block;
use crate::product::product_of;
use crate::stage::{Stage, Wait, next_stage};
use blocks::types::{Type, TypeKind};
use format::fund_type::order_of;
use format::limits::DEPTH_LIMIT;
use format::refusal::{Reason, Refusal};
use records::scan::{refused, run_of};
use tables::find::find_row;
use tables::row::row_at;
use tables::table::Table;
use tables::tests::test_table;

// A fundamental type's line of the settings' table; 18 at 0 for a number that has none.
pub fn fundamental_size(sizes: &[u32], number: u16) -> Result<u32, Refusal>
    ensures { said result ≡ fundamental_size sizes.now number }
{
    let k = order_of(number);
    if k < sizes.len() {
        Ok(sizes[k])
    } else {
        Err(refused(Reason::Number, 0))
    }
}

// The largest end so far and that of a member at row c: 20 past 32 bits, at the member.
pub fn grown(rows: &[u32], c: usize, largest: u32, offset: u32, size: u32) -> Result<u32, Refusal>
    ensures { said result ≡ grown rows.now c largest offset size }
{
    let end = offset as u64 + size as u64;
    if end > 0xffff_ffff {
        let row = row_at(rows, c);
        return Err(refused(Reason::Big, row.key));
    }
    if largest as u64 <= end {
        Ok(end as u32)
    } else {
        Ok(largest)
    }
}

// The element's size times the dimensions of attribute `at`.
pub(crate) fn array_product(
    t: &Table<'_, '_>,
    i: usize,
    at: usize,
    size: u32,
) -> Result<u32, Refusal>
    ensures { said result ≡ array_product t.now.settings t.now.section.now t.now.rows.now t.now.attrs.now i at size }
{
    let e = t.settings.endian;
    let run = run_of(e, t.rows, i);
    let block = subscript_block(t.section, t.attrs, run, at);
    product_of(block, e, run.key, size)
}

// The size of a type.
#[cycle(entry_size_staged_size_type_size)]
pub(crate) fn type_size(t: &Table<'_, '_>, levels: usize, of: Type) -> Result<u32, Refusal>
    requires { TableReady t.now.section.now t.now.rows.now t.now.counts.rows }
    ensures { said result ≡ type_size t.now.settings t.now.sizes.now (table_rows (table_of t.now)) levels of }
{
    if of.pointer {
        return Ok(4);
    }
    let kind = of.kind;
    match kind {
        TypeKind::Fundamental(number) => fundamental_size(t.sizes, number),
        TypeKind::UserDefined(key) => entry_size(t, levels, key),
    }
}

// The size of the entry that has a key: 11 where there is none, 10 where no level is left.
#[cycle(entry_size_staged_size_type_size)]
pub(crate) fn entry_size(t: &Table<'_, '_>, levels: usize, key: u32) -> Result<u32, Refusal>
    requires { TableReady t.now.section.now t.now.rows.now t.now.counts.rows }
    ensures { said result ≡ entry_size t.now.settings t.now.sizes.now (table_rows (table_of t.now)) levels key }
{
    let Some(i) = find_row(t.rows, t.counts.rows, key) else {
        return Err(refused(Reason::Entry, key));
    };
    if levels == 0 {
        return Err(refused(Reason::Depth, key));
    }
    staged_size(t, levels - 1, i)
}

// The size of row i, stage by stage; the entries that it names have so many levels left. `next_stage` stands here twice, since the compiler would put its frame
// into this one if it had one caller (docs/STACK.md).
#[cycle(entry_size_staged_size_type_size)]
fn staged_size(t: &Table<'_, '_>, levels: usize, i: usize) -> Result<u32, Refusal>
    requires { AskedShort t.now.section.now t.now.rows.now t.now.counts.rows i }
    ensures { said result ≡ row_size t.now.settings (table_rows (table_of t.now))
        (type_size t.now.settings t.now.sizes.now (table_rows (table_of t.now)) levels) i }
{
    let mut wait = next_stage(t, i, Stage::Begin, 0)?;
    loop {
        match wait {
            Wait::Nothing(size) => return Ok(size),
            Wait::Type { of, stage } => {
                let size = type_size(t, levels, of)?;
                wait = next_stage(t, i, stage, size)?;
            }
        }
    }
}

// The size of a key's entry, which is depth 1.
pub fn size_of_key(t: &Table<'_, '_>, key: u32) -> Result<u32, Refusal>
    ensures { said result ≡ size_of_key (table_of t.now) key }
{
    test_table(t)?;
    entry_size(t, DEPTH_LIMIT, key)
}

// The size of a type; an entry that it names is depth 1.
pub fn size_of_type(t: &Table<'_, '_>, of: Type) -> Result<u32, Refusal>
    ensures { said result ≡ size_of_type (table_of t.now) of }
{
    test_table(t)?;
    type_size(t, DEPTH_LIMIT, of)
}
