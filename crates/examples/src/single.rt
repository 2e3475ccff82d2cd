// Questions for the records that need no room.
use crate::cursor::{Cursor, bytes, flag, given, refusal, word};
use crate::fields::{name, of_type, option};
use records::fields::{Visibility, text_part};
use records::label::{Label, process_subroutine_label_tag};
use records::member::{Bits, Member, process_structure_member_tag};
use records::overlay_branch::{OverlayBranch, process_overlay_branch};
use records::ptr_to_member::{PtrToMember, process_ptr_to_member_tag};
use records::typedef::{Typedef, process_typedef_tag};
use records::variable::{Variable, process_variable_tag};
use tables::table::Table;

fn bits(body: &[u8], c: Cursor, bits: Option<Bits>) -> Cursor {
    match bits {
        Some(Bits { size, offset }) => word(body, word(body, word(body, c, 1), size), offset),
        None => word(body, c, 0),
    }
}

fn visibility_number(visibility: Visibility) -> u32 {
    match visibility {
        Visibility::Private => 0,
        Visibility::Protected => 1,
        Visibility::Public => 2,
    }
}

fn member_words(body: &[u8], c: Cursor, s: &[u8], member: Member) -> Cursor {
    let of = member.of;
    let named = member.name;
    let field = member.bits;
    let visibility = member.visibility;
    let size = member.byte_size;
    let typed = of_type(body, name(body, c, s, named), s, of);
    let placed = word(body, typed, member.offset);
    let seen = word(
        body,
        bits(body, placed, field),
        visibility_number(visibility),
    );
    option(body, seen, size)
}

pub fn member(body: &[u8], c: Cursor, t: &Table<'_, '_>, key: u32) -> Cursor {
    match process_structure_member_tag(t, key) {
        Ok(found) => member_words(body, given(body, c), t.section, found),
        Err(why) => refusal(body, c, why),
    }
}

fn typedef_words(body: &[u8], c: Cursor, s: &[u8], found: Typedef) -> Cursor {
    let text = found.name;
    let of = found.of;
    of_type(body, bytes(body, c, text_part(s, text)), s, of)
}

pub fn typedef(body: &[u8], c: Cursor, t: &Table<'_, '_>, key: u32) -> Cursor {
    match process_typedef_tag(t, key) {
        Ok(found) => typedef_words(body, given(body, c), t.section, found),
        Err(why) => refusal(body, c, why),
    }
}

fn variable_words(body: &[u8], c: Cursor, s: &[u8], found: Variable) -> Cursor {
    let plain = found.name;
    let mangled = found.mangled_name;
    let of = found.of;
    let address = found.address;
    let named = name(body, name(body, c, s, plain), s, mangled);
    let placed = option(body, of_type(body, named, s, of), address);
    flag(body, placed, found.local)
}

pub fn variable(body: &[u8], c: Cursor, t: &Table<'_, '_>, key: u32) -> Cursor {
    match process_variable_tag(t, key) {
        Ok(found) => variable_words(body, given(body, c), t.section, found),
        Err(why) => refusal(body, c, why),
    }
}

fn label_words(body: &[u8], c: Cursor, s: &[u8], found: Label) -> Cursor {
    let text = found.name;
    word(body, bytes(body, c, text_part(s, text)), found.address)
}

pub fn label(body: &[u8], c: Cursor, t: &Table<'_, '_>, key: u32) -> Cursor {
    match process_subroutine_label_tag(t, key) {
        Ok(found) => label_words(body, given(body, c), t.section, found),
        Err(why) => refusal(body, c, why),
    }
}

fn ptr_words(body: &[u8], c: Cursor, s: &[u8], found: PtrToMember) -> Cursor {
    let of = found.of;
    word(body, of_type(body, c, s, of), found.containing)
}

pub fn ptr_to_member(body: &[u8], c: Cursor, t: &Table<'_, '_>, key: u32) -> Cursor {
    match process_ptr_to_member_tag(t, key) {
        Ok(found) => ptr_words(body, given(body, c), t.section, found),
        Err(why) => refusal(body, c, why),
    }
}

fn overlay_words(body: &[u8], c: Cursor, s: &[u8], found: OverlayBranch) -> Cursor {
    let text = found.name;
    let unit = found.compile_unit;
    let numbered = word(body, bytes(body, c, text_part(s, text)), found.id);
    let begun = word(body, numbered, found.start_address);
    option(body, word(body, begun, found.end_address), unit)
}

pub fn overlay_branch(body: &[u8], c: Cursor, t: &Table<'_, '_>, key: u32) -> Cursor {
    match process_overlay_branch(t, key) {
        Ok(found) => overlay_words(body, given(body, c), t.section, found),
        Err(why) => refusal(body, c, why),
    }
}
