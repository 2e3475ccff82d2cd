// Each row is read once, and what sizes and layouts take of it is kept: first the members and siblings, then which structures are at fault.
ghost use Rattle.format.specs.Said.{said};
ghost use Rattle.std.specs.Prelude.{◌≡◌, ◌+◌, ◌*◌, ◌≤◌, length};
ghost use Rattle.tables.specs.Inside.Find.{Rising};
ghost use Rattle.links.specs.Inside.Children.{Asked};
ghost use Rattle.sizes.specs.Inside.Lent.{over, over_sizes};
ghost use Rattle.sizes.specs.Size.{type_size_by};
ghost use Rattle.sizes.specs.Inside.Kept.{kept_width, row_named, size_named, first_of, second_of, fault_size, PutTwo, PutRow, PutFault, KeepAsked};
ghost use Rattle.sizes.specs.Inside.Kept.{FaultAsked, MembersKept, PartsKept};

use blocks::types::{Type, TypeKind};
use format::refusal::{Reason, Refusal};
use links::link::sibling_row;
use records::member::{Member, member_at};
use records::scan::refused;
use sizes::kept::KEPT;
use sizes::noted::put_noted;
use sizes::prepare::{is_structure, structure_fault};
use sizes::size::fundamental_size;
use tables::find::find_row;
use tables::row::row_at;
use tables::table::Table;

// The row of an entry that has the size, told as 10 at it; 11 where there is none.
fn row_named(t: &Table<'_, '_>, key: u32) -> Result<u32, Refusal>
    requires { Rising t.now.rows.now t.now.counts.rows }
    ensures { said result ≡ row_named t.now.rows.now t.now.counts.rows key }
{
    match find_row(t.rows, t.counts.rows, key) {
        Some(i) => Err(Refusal {
            reason: Reason::Depth,
            place: i as u64,
        }),
        None => Err(refused(Reason::Entry, key)),
    }
}

// The size of a type, an entry that it names told by its row.
#[tactic(auto, unfolding(sizes::specs::Size::type_size_by, sizes::specs::Size::kind_size, format::specs::Said::said))]
fn type_named(t: &Table<'_, '_>, of: Type) -> Result<u32, Refusal>
    requires { Rising t.now.rows.now t.now.counts.rows }
    ensures { said result ≡ type_size_by t.now.sizes.now (row_named t.now.rows.now t.now.counts.rows) of }
{
    if of.pointer {
        return Ok(4);
    }
    match of.kind {
        TypeKind::Fundamental(number) => fundamental_size(t.sizes, number),
        TypeKind::UserDefined(key) => row_named(t, key),
    }
}

// A member's size likewise: its own ByteSize, else its type's.
#[tactic(auto, unfolding(sizes::specs::Inside::Kept::size_named, sizes::specs::Size::size_or, format::specs::Said::said))]
fn size_named(t: &Table<'_, '_>, member: Member) -> Result<u32, Refusal>
    requires { Rising t.now.rows.now t.now.counts.rows }
    ensures { said result ≡ size_named t.now.sizes.now t.now.rows.now t.now.counts.rows member }
{
    match member.byte_size {
        Some(size) => Ok(size),
        None => type_named(t, member.of),
    }
}

// Two answers about row c.
fn keep_two(kept: &mut [u64], c: usize, first: Result<u32, Refusal>, second: Result<u32, Refusal>)
    requires { c * kept_width + kept_width ≤ length kept.old }
    ensures { PutTwo c (said first) (said second) kept.old kept.new }
{
    put_noted(kept, c * KEPT, first);
    put_noted(kept, c * KEPT + 1, second);
}

// The member at row c.
fn keep_member(t: &Table<'_, '_>, kept: &mut [u64], c: usize, read: Result<Member, Refusal>)
    requires { Rising t.now.rows.now t.now.counts.rows × (c * kept_width + kept_width ≤ length kept.old) }
    ensures { PutTwo c (first_of (said read)) (second_of t.now.sizes.now t.now.rows.now t.now.counts.rows (said read)) kept.old kept.new }
{
    match read {
        Ok(member) => keep_two(kept, c, Ok(member.offset), size_named(t, member)),
        Err(why) => keep_two(kept, c, Err(why), Ok(0)),
    }
}

// Row c: its sibling, and what it is as a member, if it is one.
fn keep_row(t: &Table<'_, '_>, kept: &mut [u64], c: usize)
    requires { Asked t.now.rows.now t.now.counts.rows c × KeepAsked t.now.rows.now t.now.counts.rows kept.old }
    ensures { over_sizes PutRow t.now c kept.old kept.new }
{
    let sibling = sibling_row(t, c);
    put_noted(kept, c * KEPT + 2, Ok((sibling % 4294967296) as u32));
    let row = row_at(t.rows, c);
    if row.kind == 0x0d {
        keep_member(t, kept, c, member_at(t, c));
    }
}

// All rows one after the other: members and siblings.
fn keep_members(t: &Table<'_, '_>, kept: &mut [u64])
    requires { KeepAsked t.now.rows.now t.now.counts.rows kept.old }
    ensures { over_sizes MembersKept t.now kept.new }
{
    for c in 0..t.counts.rows {
        keep_row(t, kept, c);
    }
}

// A fault in the words of noted sizes.
fn fault_size(fault: Result<(), Refusal>) -> Result<u32, Refusal>
    ensures { said result ≡ fault_size (said fault) }
{
    fault?;
    Ok(0)
}

// Row i: its members' fault, if it is a structure.
fn keep_fault(t: &Table<'_, '_>, kept: &mut [u64], i: usize)
    requires { Asked t.now.rows.now t.now.counts.rows i × over FaultAsked t.now kept.old }
    ensures { over PutFault t.now i kept.old kept.new }
{
    let row = row_at(t.rows, i);
    if is_structure(row.kind) {
        let fault = structure_fault(t, kept, i);
        put_noted(kept, i * KEPT, fault_size(fault));
    }
}

// Then the structures, whose members are kept by now.
fn keep_faults(t: &Table<'_, '_>, kept: &mut [u64])
    requires { KeepAsked t.now.rows.now t.now.counts.rows kept.old × over_sizes MembersKept t.now kept.old }
    ensures { over_sizes PartsKept t.now kept.new }
{
    for i in 0..t.counts.rows {
        keep_fault(t, kept, i);
    }
}

// What is kept of all rows.
pub(crate) fn keep_rows(t: &Table<'_, '_>, kept: &mut [u64])
    requires { KeepAsked t.now.rows.now t.now.counts.rows kept.old }
    ensures { over_sizes PartsKept t.now kept.new }
{
    keep_members(t, kept);
    keep_faults(t, kept);
}
