// What an entry's size takes before any other size is asked for: the row's kind, an array's subscripts, a structure's members and every record are read whole.
ghost use Rattle.format.specs.Said.{said};
ghost use Rattle.std.specs.Prelude.{◌≡◌};
ghost use Rattle.links.specs.Inside.Children.{Asked};
ghost use Rattle.records.specs.Inside.Enumeration.{AskedShort};
ghost use Rattle.sizes.specs.Size.{is_structure, shape_of, subscript_block, subscripts_at};
ghost use Rattle.links.specs.Inside.EachChild.{children_at};
ghost use Rattle.records.specs.Inside.Unions.{EndsAt};
ghost use Rattle.sizes.specs.Inside.Kept.{fault_kept, FaultsKept, RowsKept, StructureAsked};
ghost use Rattle.sizes.specs.Inside.Prepare.{SmallPlace, member_fault, members_fault, structure_fault, prepared_array, prepared_structure};
ghost use Rattle.sizes.specs.Inside.Prepare.{said_prepared, prepared_enumeration, prepared_union, prepared_pointer, prepared_row};
ghost use Rattle.sizes.specs.Inside.Lent.{over, over_rows};

use crate::kept::{KEPT, kept_sibling};
use crate::noted::noted_at;
use attributes::decode::block2;
use blocks::subscripts::{Array, count_subscripts};
use blocks::types::Type;
use format::attribute_kind::{BYTE_SIZE, SUBSCR_DATA};
use format::refusal::{Reason, Refusal};
use links::any_child::any_child;
use links::each_child::child_from;
use links::link::next_row;
use records::enumeration::enumeration_at;
use records::fields::last_word;
use records::member::member_at;
use records::ptr_to_member::ptr_to_member_at;
use records::scan::{Run, attribute_at, placed, refused, run_of};
use records::unions::union_at;
use tables::row::row_at;
use tables::table::Table;

// How a row comes to its size.
#[derive(Clone, Copy)]
pub enum Shape {
    Array,
    Structure,
    Enumeration,
    Union,
    PtrToMember,
    Subroutine,
    // No size: 12.
    Other,
}

// An entry's size, or what is still needed: the size of an array's element, whose subscripts are attribute `at`; the ends of a structure's members.
#[derive(Clone, Copy)]
pub enum Prepared {
    Size(u32),
    Element { of: Type, at: usize },
    Ends,
}

// How a row of this kind comes to its size.
#[tactic(auto, unfolding(format::specs::Lookup::lookup, crate::specs::Size::shapes, crate::specs::Size::shape_of))]
pub fn shape_of(kind: u32) -> Shape
    ensures { result ≡ shape_of kind }
{
    match kind {
        0x01 => Shape::Array,
        0x02 => Shape::Structure,
        0x04 => Shape::Enumeration,
        0x06 => Shape::Subroutine,
        0x13 => Shape::Structure,
        0x14 => Shape::Subroutine,
        0x15 => Shape::Subroutine,
        0x17 => Shape::Union,
        0x1f => Shape::PtrToMember,
        _ => Shape::Other,
    }
}

// Is it a structure or a class?
#[tactic(auto, unfolding(crate::specs::Size::is_structure))]
pub fn is_structure(kind: u32) -> bool
    ensures { result ≡ is_structure (shape_of kind) }
{
    match shape_of(kind) {
        Shape::Array => false,
        Shape::Structure => true,
        Shape::Enumeration => false,
        Shape::Union => false,
        Shape::PtrToMember => false,
        Shape::Subroutine => false,
        Shape::Other => false,
    }
}

// ---- arrays

// The block of subscripts that is attribute k of the table.
#[tactic(auto, unfolding(crate::specs::Size::subscript_block))]
pub(crate) fn subscript_block<'a>(s: &'a [u8], attrs: &[u32], run: Run, k: usize) -> &'a [u8]
    ensures { result.now ≡ subscript_block s.now attrs.now run k }
{
    let attribute = attribute_at(attrs, k);
    let ends = run.ends;
    block2(s, attribute.value, ends)
}

// The array that attribute k says; what is wrong with it is told at the row.
fn subscripts_at(s: &[u8], attrs: &[u32], run: Run, k: usize) -> Result<Array, Refusal>
    ensures { said result ≡ subscripts_at s.now attrs.now run k }
{
    let ends = run.ends;
    let block = subscript_block(s, attrs, run, k);
    count_subscripts(block, ends.section).map_err(|why| placed(why, run.key))
}

// Every SubscrData is read; the last counts, and one is needed.
fn prepare_array(s: &[u8], attrs: &[u32], run: Run) -> Result<Prepared, Refusal>
    ensures { said_prepared result ≡ prepared_array s.now attrs.now run }
{
    let mut last = None;
    for j in 0..run.count as usize {
        let k = run.first as usize + j;
        let attribute = attribute_at(attrs, k);
        if attribute.number == SUBSCR_DATA {
            let array = subscripts_at(s, attrs, run, k)?;
            last = Some(Prepared::Element {
                of: array.element,
                at: k,
            });
        }
    }
    last.ok_or(refused(Reason::Missing, run.key))
}

// ---- structures and classes

// The fault of a row as it is kept.
fn fault_kept(kept: &[u64], c: usize) -> Result<(), Refusal>
    requires { SmallPlace c }
    ensures { said result ≡ fault_kept kept.now c }
{
    noted_at(kept, c * KEPT)?;
    Ok(())
}

// A child: a member must be read whole, any other is passed over.
fn member_fault(t: &Table<'_, '_>, kept: &[u64], c: usize) -> Result<(), Refusal>
    requires { Asked t.now.rows.now t.now.counts.rows c × over FaultsKept t.now kept.now }
    ensures { said result ≡ over member_fault t.now c }
{
    let row = row_at(t.rows, c);
    if row.kind != 0x0d {
        return Ok(());
    }
    if kept.len() > 0 {
        return fault_kept(kept, c);
    }
    member_at(t, c)?;
    Ok(())
}

// The children of row i, whose walk ends, one at a time.
fn members_fault(t: &Table<'_, '_>, kept: &[u64], i: usize) -> Result<(), Refusal>
    requires { over_rows EndsAt t.now i × over FaultsKept t.now kept.now }
    ensures { said result ≡ over members_fault t.now (over_rows children_at t.now i) }
{
    let end = kept_sibling(t, kept, i);
    let mut c = child_from(t, end, next_row(t.rows, t.counts.rows, i));
    while c < t.counts.rows {
        member_fault(t, kept, c)?;
        c = child_from(t, end, kept_sibling(t, kept, c));
    }
    Ok(())
}

// 9 where the walk never ends.
pub fn structure_fault(t: &Table<'_, '_>, kept: &[u64], i: usize) -> Result<(), Refusal>
    requires { Asked t.now.rows.now t.now.counts.rows i × over FaultsKept t.now kept.now }
    ensures { said result ≡ over structure_fault t.now i }
{
    match any_child(t, i) {
        Some(_) => members_fault(t, kept, i),
        None => {
            let row = row_at(t.rows, i);
            Err(refused(Reason::Link, row.key))
        }
    }
}

// The same of a structure, if it is kept.
pub fn kept_fault(t: &Table<'_, '_>, kept: &[u64], i: usize) -> Result<(), Refusal>
    requires { over StructureAsked t.now kept.now i }
    ensures { said result ≡ over structure_fault t.now i }
{
    if kept.len() > 0 {
        fault_kept(kept, i)
    } else {
        structure_fault(t, kept, i)
    }
}

// ByteSize, or else the largest member end.
fn prepare_structure(t: &Table<'_, '_>, kept: &[u64], i: usize) -> Result<Prepared, Refusal>
    requires { over StructureAsked t.now kept.now i }
    ensures { said_prepared result ≡ over prepared_structure t.now i }
{
    kept_fault(t, kept, i)?;
    let run = run_of(t.settings.endian, t.rows, i);
    match last_word(t.section, t.attrs, run, BYTE_SIZE) {
        Some(size) => Ok(Prepared::Size(size)),
        None => Ok(Prepared::Ends),
    }
}

// ---- the others: read whole

fn prepare_enumeration(t: &Table<'_, '_>, i: usize) -> Result<Prepared, Refusal>
    requires { AskedShort t.now.section.now t.now.rows.now t.now.counts.rows i }
    ensures { said_prepared result ≡ over prepared_enumeration t.now i }
{
    let found = enumeration_at(t, i)?;
    Ok(Prepared::Size(found.byte_size))
}

fn prepare_union(t: &Table<'_, '_>, i: usize) -> Result<Prepared, Refusal>
    requires { Asked t.now.rows.now t.now.counts.rows i }
    ensures { said_prepared result ≡ over prepared_union t.now i }
{
    let found = union_at(t, i)?;
    Ok(Prepared::Size(found.byte_size))
}

fn prepare_pointer(t: &Table<'_, '_>, i: usize) -> Result<Prepared, Refusal>
    requires { Asked t.now.rows.now t.now.counts.rows i }
    ensures { said_prepared result ≡ over prepared_pointer t.now i }
{
    ptr_to_member_at(t, i)?;
    Ok(Prepared::Size(4))
}

// Row i of a tested table.
pub(crate) fn prepare_row(t: &Table<'_, '_>, kept: &[u64], i: usize) -> Result<Prepared, Refusal>
    requires { AskedShort t.now.section.now t.now.rows.now t.now.counts.rows i × over RowsKept t.now kept.now }
    ensures { said_prepared result ≡ over prepared_row t.now i }
{
    let row = row_at(t.rows, i);
    match shape_of(row.kind) {
        Shape::Array => {
            let run = run_of(t.settings.endian, t.rows, i);
            prepare_array(t.section, t.attrs, run)
        }
        Shape::Structure => prepare_structure(t, kept, i),
        Shape::Enumeration => prepare_enumeration(t, i),
        Shape::Union => prepare_union(t, i),
        Shape::PtrToMember => prepare_pointer(t, i),
        Shape::Subroutine => Ok(Prepared::Size(0)),
        Shape::Other => Err(refused(Reason::Kind, row.key)),
    }
}
