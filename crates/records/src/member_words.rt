// A member's record as words, for lent room: its row, then each field; what may be absent is a flag and its value.
ghost use Rattle.std.specs.Prelude.{◌≡◌, ◌*◌};
ghost use Rattle.std.proofs.lemmas.List.Edits.{sets};
ghost use Rattle.records.specs.MemberWords.{flag, name_place, name_length, kind_tag, kind_number, bool_word, bits_size, bits_offset};
ghost use Rattle.records.specs.MemberWords.{visibility_word, word_number, member_words, member_width};

use crate::fields::{Text, Visibility};
use crate::member::{Bits, Member};
use blocks::types::TypeKind;
use lent::cells::put_all;

// The words of a member's record.
pub const MEMBER_WIDTH: usize = 16;

// 1 where a value is there.
#[tactic(auto, unfolding(crate::specs::MemberWords::flag))]
fn flag<T: Copy>(value: Option<T>) -> u64
    ensures { result ≡ flag value }
{
    u64::from(value.is_some())
}

// Where a name stands, 0 without one.
#[tactic(auto, unfolding(crate::specs::MemberWords::name_place))]
pub fn name_place(name: Option<Text>) -> u64
    ensures { result ≡ name_place name }
{
    name.map_or(0, |text| text.place as u64)
}

// How long it is, 0 without one.
#[tactic(auto, unfolding(crate::specs::MemberWords::name_length))]
pub fn name_length(name: Option<Text>) -> u64
    ensures { result ≡ name_length name }
{
    name.map_or(0, |text| text.length as u64)
}

#[tactic(auto, unfolding(crate::specs::MemberWords::kind_tag))]
fn kind_tag(kind: TypeKind) -> u64
    ensures { result ≡ kind_tag kind }
{
    match kind {
        TypeKind::Fundamental(_) => 0,
        TypeKind::UserDefined(_) => 1,
    }
}

#[tactic(auto, unfolding(crate::specs::MemberWords::kind_number))]
fn kind_number(kind: TypeKind) -> u64
    ensures { result ≡ kind_number kind }
{
    match kind {
        TypeKind::Fundamental(number) => u64::from(number),
        TypeKind::UserDefined(key) => u64::from(key),
    }
}

#[tactic(auto, unfolding(crate::specs::MemberWords::bool_word))]
fn bool_word(b: bool) -> u64
    ensures { result ≡ bool_word b }
{
    u64::from(b)
}

#[tactic(auto, unfolding(crate::specs::MemberWords::bits_size))]
fn bits_size(bits: Option<Bits>) -> u64
    ensures { result ≡ bits_size bits }
{
    bits.map_or(0, |bits| u64::from(bits.size))
}

#[tactic(auto, unfolding(crate::specs::MemberWords::bits_offset))]
fn bits_offset(bits: Option<Bits>) -> u64
    ensures { result ≡ bits_offset bits }
{
    bits.map_or(0, |bits| u64::from(bits.offset))
}

#[tactic(auto, unfolding(crate::specs::MemberWords::visibility_word))]
fn visibility_word(visibility: Visibility) -> u64
    ensures { result ≡ visibility_word visibility }
{
    match visibility {
        Visibility::Private => 0,
        Visibility::Protected => 1,
        Visibility::Public => 2,
    }
}

#[tactic(auto, unfolding(crate::specs::MemberWords::word_number))]
fn word_number(word: Option<u32>) -> u64
    ensures { result ≡ word_number word }
{
    word.map_or(0, u64::from)
}

// The member at row `row`, as record k of the room, if it fits.
pub(crate) fn put_member(room: &mut [u64], k: usize, row: usize, member: Member)
    ensures { room.new ≡ sets room.old (k * member_width) (member_words row member) }
{
    let of = member.of;
    let words = [
        row as u64,
        flag(member.name),
        name_place(member.name),
        name_length(member.name),
        kind_tag(of.kind),
        kind_number(of.kind),
        of.place as u64,
        of.count as u64,
        bool_word(of.pointer),
        u64::from(member.offset),
        flag(member.bits),
        bits_size(member.bits),
        bits_offset(member.bits),
        visibility_word(member.visibility),
        flag(member.byte_size),
        word_number(member.byte_size),
    ];
    if k < room.len() {
        put_all(room, k * MEMBER_WIDTH, &words);
    }
}
