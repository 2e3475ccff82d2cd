// Sizes for calls that take many: `noted` are sizes that are noted already, `kept` what is kept of each row; where they are empty, sizes are taken
// with so many levels left.
ghost use Rattle.tables.specs.Table.{table_of, table_rows};
ghost use Rattle.format.specs.Said.{said};
ghost use Rattle.std.specs.Prelude.{◌≡◌};
ghost use Rattle.links.specs.Inside.EachChild.{children_at};
ghost use Rattle.records.specs.Inside.Enumeration.{AskedShort};
ghost use Rattle.sizes.specs.Size.{row_size};
ghost use Rattle.sizes.specs.Inside.Kept.{AllKept, MemberAsked};
ghost use Rattle.sizes.specs.Inside.Size.{TableReady, EndsShort, said_added, member_added, grown, child_end, ends_over, entry_size_from, type_size_from};
ghost use Rattle.sizes.specs.Inside.Lent.{over, over_sizes, over_rows};

use crate::kept::{Added, added_kept, kept_sibling, with_size};
use crate::noted::noted_at;
use crate::prepare::{Prepared, prepare_row};
use crate::size::{array_product, entry_size, fundamental_size, grown};
use blocks::types::{Type, TypeKind};
use format::refusal::{Reason, Refusal};
use links::each_child::child_from;
use links::link::next_row;
use records::member::member_at;
use records::scan::refused;
use tables::find::find_row;
use tables::row::row_at;
use tables::table::Table;

// The size of the entry that has a key, from the noted ones if there are any.
fn entry_size_from(
    t: &Table<'_, '_>,
    noted: &[u64],
    levels: usize,
    key: u32,
) -> Result<u32, Refusal>
    requires { TableReady t.now.section.now t.now.rows.now t.now.counts.rows }
    ensures { said result ≡ over_sizes entry_size_from t.now noted.now levels key }
{
    if noted.len() == 0 {
        return entry_size(t, levels, key);
    }
    match find_row(t.rows, t.counts.rows, key) {
        Some(i) => noted_at(noted, i),
        None => Err(refused(Reason::Entry, key)),
    }
}

// The same of a type.
#[tactic(auto, unfolding(crate::specs::Inside::Size::type_size_from, crate::specs::Size::type_size_by, crate::specs::Size::kind_size, format::specs::Said::said))]
fn type_size_from(t: &Table<'_, '_>, noted: &[u64], levels: usize, of: Type) -> Result<u32, Refusal>
    requires { TableReady t.now.section.now t.now.rows.now t.now.counts.rows }
    ensures { said result ≡ over_sizes type_size_from t.now noted.now levels of }
{
    if of.pointer {
        return Ok(4);
    }
    let kind = of.kind;
    match kind {
        TypeKind::Fundamental(number) => fundamental_size(t.sizes, number),
        TypeKind::UserDefined(key) => entry_size_from(t, noted, levels, key),
    }
}

// The size of row i; the entries that it names have so many levels left.
pub fn row_size(
    t: &Table<'_, '_>,
    noted: &[u64],
    kept: &[u64],
    levels: usize,
    i: usize,
) -> Result<u32, Refusal>
    requires { AskedShort t.now.section.now t.now.rows.now t.now.counts.rows i × over_sizes AllKept t.now noted.now kept.now }
    ensures { said result ≡ row_size t.now.settings (table_rows (table_of t.now)) (over_sizes type_size_from t.now noted.now levels) i }
{
    match prepare_row(t, kept, i)? {
        Prepared::Size(size) => Ok(size),
        Prepared::Element { of, at } => {
            let size = type_size_from(t, noted, levels, of)?;
            array_product(t, i, at, size)
        }
        Prepared::Ends => ends_size(t, noted, kept, levels, i),
    }
}

// What the member at row c adds to its structure, as its row says: its offset and its own size, else its type's.
fn read_added(
    t: &Table<'_, '_>,
    noted: &[u64],
    kept: &[u64],
    levels: usize,
    c: usize,
) -> Result<Added, Refusal>
    requires { over_sizes MemberAsked t.now noted.now kept.now c }
    ensures { said_added result ≡ over member_added t.now (over_sizes type_size_from t.now noted.now levels) c }
{
    let member = member_at(t, c)?;
    match member.byte_size {
        Some(size) => Ok(Added {
            offset: member.offset,
            size,
        }),
        None => {
            let size = type_size_from(t, noted, levels, member.of);
            with_size(member.offset, size)
        }
    }
}

// The same, if it is kept as that.
pub fn member_added(
    t: &Table<'_, '_>,
    noted: &[u64],
    kept: &[u64],
    levels: usize,
    c: usize,
) -> Result<Added, Refusal>
    requires { over_sizes MemberAsked t.now noted.now kept.now c }
    ensures { said_added result ≡ over member_added t.now (over_sizes type_size_from t.now noted.now levels) c }
{
    if kept.len() > 0 {
        return added_kept(noted, kept, c);
    }
    read_added(t, noted, kept, levels, c)
}

// The largest end so far with that of child c.
fn child_end(
    t: &Table<'_, '_>,
    noted: &[u64],
    kept: &[u64],
    levels: usize,
    c: usize,
    largest: u32,
) -> Result<u32, Refusal>
    requires { AskedShort t.now.section.now t.now.rows.now t.now.counts.rows c × over_sizes AllKept t.now noted.now kept.now }
    ensures { said result ≡ over child_end t.now (over_sizes type_size_from t.now noted.now levels) largest c }
{
    let row = row_at(t.rows, c);
    if row.kind != 0x0d {
        return Ok(largest);
    }
    let Added { offset, size } = member_added(t, noted, kept, levels, c)?;
    grown(t.rows, c, largest, offset, size)
}

// The largest member end of row i, whose child walk ends.
fn ends_size(
    t: &Table<'_, '_>,
    noted: &[u64],
    kept: &[u64],
    levels: usize,
    i: usize,
) -> Result<u32, Refusal>
    requires { over EndsShort t.now i × over_sizes AllKept t.now noted.now kept.now }
    ensures { said result ≡ over ends_over t.now (over_sizes type_size_from t.now noted.now levels) 0 (over_rows children_at t.now i) }
{
    let end = kept_sibling(t, kept, i);
    let mut c = child_from(t, end, next_row(t.rows, t.counts.rows, i));
    let mut largest = 0;
    while c < t.counts.rows {
        largest = child_end(t, noted, kept, levels, c, largest)?;
        c = child_from(t, end, kept_sibling(t, kept, c));
    }
    Ok(largest)
}
