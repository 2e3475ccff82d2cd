// Questions on a block alone: our answer, held against the words of the case.
use crate::cursor::{Cursor, count, given, no_room, refusal, start, word, word_of};
use crate::fields::{modifier_number, modifiers, of_type};
use crate::settings::endian_by;
use attributes::decode::{Endians, part};
use blocks::location::{
    VariableLocation, process_address, process_offset, process_variable_location,
};
use blocks::modifiers::process_modifiers;
use blocks::producer::parse_producer;
use blocks::subscripts::process_array_subscript_data;
use blocks::types::process_type;
use format::modifier::Modifier;
use format::refusal::{Reason, Refusal, Unfilled};
use format::settings::Producer;
use lent::cells::get_or;
use numbers::Endian;
use std::num::wrapping_add_usize;

fn located(body: &[u8], c: Cursor, found: Result<u32, Refusal>) -> Cursor {
    match found {
        Ok(n) => word(body, given(body, c), n),
        Err(why) => refusal(body, c, why),
    }
}

// The Rust's text has names for the registers up to 108; for any other the case has all bits set.
fn register(body: &[u8], c: Cursor, number: u32) -> Cursor {
    if number <= 108 {
        word(body, c, number)
    } else {
        word(body, c, 0xffff_ffff)
    }
}

fn location(body: &[u8], c: Cursor, found: Result<VariableLocation, Refusal>) -> Cursor {
    let place = match found {
        Ok(place) => place,
        Err(why) => return refusal(body, c, why),
    };
    let d = given(body, c);
    match place {
        VariableLocation::Register(number) => register(body, word(body, d, 0), number),
        VariableLocation::Address(address) => word(body, word(body, d, 1), address),
        VariableLocation::RegisterPlus {
            register: number,
            offset,
        } => word(body, register(body, word(body, d, 2), number), offset),
    }
}

fn modifier_list(body: &[u8], c: Cursor, block: &[u8]) -> Cursor {
    match process_modifiers(block) {
        Ok(pointer) => modifiers(body, given(body, c), block, pointer),
        Err(why) => refusal(body, c, why),
    }
}

// Two words for each: its index type and its size.
fn dimensions(body: &[u8], c: Cursor, dims: &[u32], n: usize) -> Cursor {
    let mut d = count(body, c, n);
    let mut at: usize = 0;
    for _ in 0..n {
        let index = word(body, d, get_or(dims, at, 0));
        d = word(body, index, get_or(dims, wrapping_add_usize(at, 1), 0));
        at = wrapping_add_usize(at, 2);
    }
    d
}

fn subscripts(body: &[u8], c: Cursor, block: &[u8], e: Endian) -> Cursor {
    let mut dims = [0u32; 256];
    match process_array_subscript_data(block, e, &mut dims) {
        Ok(array) => {
            let d = of_type(body, given(body, c), block, array.element);
            dimensions(body, d, &dims, array.dimensions)
        }
        Err(Unfilled::Refused(why)) => refusal(body, c, why),
        Err(Unfilled::Room(_)) => no_room(body, c),
    }
}

fn producer_number(producer: Producer) -> u32 {
    match producer {
        Producer::Mwcc => 0,
        Producer::Gcc => 1,
        Producer::Other => 2,
    }
}

// A question whose body is an endianness, a block and the answer.
pub fn block(body: &[u8], kind: u32) -> Cursor {
    let e = endian_by(word_of(body, 0) == 1);
    let length = word_of(body, 4) as usize;
    let block = part(body, 8, length);
    let c = start(wrapping_add_usize(8, length));
    match kind {
        20 => located(body, c, process_offset(block, e)),
        21 => located(body, c, process_address(block, e)),
        22 => location(body, c, process_variable_location(block, e)),
        23 => modifier_list(body, c, block),
        25 => subscripts(body, c, block, e),
        _ => word(body, given(body, c), producer_number(parse_producer(block))),
    }
}

fn typed(body: &[u8], c: Cursor, value: &[u8], number: u16, ends: Endians) -> Cursor {
    match process_type(value, number, 0, ends) {
        Ok(of) => of_type(body, given(body, c), value, of),
        Err(why) => refusal(body, c, why),
    }
}

// The type that an attribute says: both endiannesses, its number, the bytes of its value.
pub fn attribute_type(body: &[u8]) -> Cursor {
    let flags = word_of(body, 0);
    let ends = Endians {
        section: endian_by(flags % 2 == 1),
        data: endian_by(flags / 2 % 2 == 1),
    };
    let number = (word_of(body, 4) % 65536) as u16;
    let length = word_of(body, 8) as usize;
    let value = part(body, 12, length);
    typed(
        body,
        start(wrapping_add_usize(12, length)),
        value,
        number,
        ends,
    )
}

fn unknown() -> Refusal {
    Refusal {
        reason: Reason::Number,
        place: 0,
    }
}

pub fn fund_type(body: &[u8]) -> Cursor {
    let number = (word_of(body, 0) % 65536) as u16;
    match format::fund_type::parse_int(number) {
        Some(n) => word(body, given(body, start(4)), n as u32),
        None => refusal(body, start(4), unknown()),
    }
}

pub fn modifier(body: &[u8]) -> Cursor {
    let number = (word_of(body, 0) % 256) as u8;
    let known = modifier_number(format::modifier::parse_int(number));
    if known == modifier_number(Modifier::Unknown) {
        refusal(body, start(4), unknown())
    } else {
        word(body, given(body, start(4)), known as u32)
    }
}
