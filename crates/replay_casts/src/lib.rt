// The requests about an integer's casts, equality and conversions, answered from the proved functions: 30 to 3d, 3f and
// 40 to 49 of oracle/FORMAT.md. Test machinery: proved is that every request is taken and every answer ends.
#![tactic(auto)]

use replay_wire::{Cursor, Reply};
use types::{Integer, Refusal, Wide};

fn as_i8(x: Integer) -> Result<Wide, Refusal> {
    match cast::as_i8(x) {
        Ok(value) => return Ok(replay_wire_numbers::of_i8(value)),
        Err(refusal) => return Err(refusal),
    }
}

fn as_i16(x: Integer) -> Result<Wide, Refusal> {
    match cast::as_i16(x) {
        Ok(value) => return Ok(replay_wire_numbers::of_i16(value)),
        Err(refusal) => return Err(refusal),
    }
}

fn as_i32(x: Integer) -> Result<Wide, Refusal> {
    match cast::as_i32(x) {
        Ok(value) => return Ok(replay_wire_numbers::of_i32(value)),
        Err(refusal) => return Err(refusal),
    }
}

fn as_i64(x: Integer) -> Result<Wide, Refusal> {
    match cast::as_i64(x) {
        Ok(value) => return Ok(replay_wire_numbers::of_i64(value)),
        Err(refusal) => return Err(refusal),
    }
}

fn as_u8(x: Integer) -> Result<Wide, Refusal> {
    match cast::as_u8(x) {
        Ok(value) => return Ok(replay_wire_numbers::unsigned(value as u64)),
        Err(refusal) => return Err(refusal),
    }
}

fn as_u16(x: Integer) -> Result<Wide, Refusal> {
    match cast::as_u16(x) {
        Ok(value) => return Ok(replay_wire_numbers::unsigned(value as u64)),
        Err(refusal) => return Err(refusal),
    }
}

fn as_u32(x: Integer) -> Result<Wide, Refusal> {
    match cast::as_u32(x) {
        Ok(value) => return Ok(replay_wire_numbers::unsigned(value as u64)),
        Err(refusal) => return Err(refusal),
    }
}

fn as_u64(x: Integer) -> Result<Wide, Refusal> {
    match cast::as_u64(x) {
        Ok(value) => return Ok(replay_wire_numbers::unsigned(value)),
        Err(refusal) => return Err(refusal),
    }
}

// The cast of a code from 30 to 39.
fn as_wide(code: u64, x: Integer) -> Result<Wide, Refusal> {
    match code {
        0x30 => as_i8(x),
        0x31 => as_i16(x),
        0x32 => as_i32(x),
        0x33 => as_i64(x),
        0x34 => cast::as_i128(x),
        0x35 => as_u8(x),
        0x36 => as_u16(x),
        0x37 => as_u32(x),
        0x38 => as_u64(x),
        _ => cast::as_u128(x),
    }
}

fn as_f32(out: &mut [u8], reply: Reply, x: Integer) -> Reply {
    match cast::as_f32(x) {
        Ok(value) => {
            let taken = replay_wire::put_word(out, reply, 0);
            return replay_wire::put_word(out, taken, binary::f32_pattern(value) as u64);
        }
        Err(refusal) => {
            return replay_wire::refused(out, reply, refusal);
        }
    }
}

fn as_f64(out: &mut [u8], reply: Reply, x: Integer) -> Reply {
    match cast::as_f64(x) {
        Ok(value) => {
            let taken = replay_wire::put_word(out, reply, 0);
            return replay_wire::put_word(out, taken, binary::f64_pattern(value));
        }
        Err(refusal) => {
            return replay_wire::refused(out, reply, refusal);
        }
    }
}

fn as_float(out: &mut [u8], reply: Reply, x: Integer) -> Reply {
    match cast::as_float(x) {
        Ok(value) => {
            let taken = replay_wire::put_word(out, reply, 0);
            return replay_wire_numbers::put_float(out, taken, value);
        }
        Err(refusal) => {
            return replay_wire::refused(out, reply, refusal);
        }
    }
}

// Answers a request whose one field is an integer.
fn of_integer(code: u64, text: &[u8], cursor: Cursor, out: &mut [u8]) -> Reply {
    let field = replay_wire_numbers::read_integer(text, cursor);
    let reply = replay_wire::begin(text, field.cursor);
    let x = field.value;
    match code {
        0x30..=0x39 => {
            return replay_wire_numbers::put_cast(out, reply, as_wide(code, x));
        }
        0x3A => {
            return as_f32(out, reply, x);
        }
        0x3B => {
            return as_f64(out, reply, x);
        }
        0x3C => {
            return as_float(out, reply, x);
        }
        _ => {
            return replay_wire::put_truth(out, reply, cast::is_zero(x));
        }
    }
}

fn equal(text: &[u8], cursor: Cursor, out: &mut [u8]) -> Reply {
    let first = replay_wire_numbers::read_integer(text, cursor);
    let a = first.value;
    let second = replay_wire_numbers::read_integer(text, first.cursor);
    let b = second.value;
    let reply = replay_wire::begin(text, second.cursor);
    replay_wire::put_truth(out, reply, cast::equal(a, b))
}

// The integer from a value of a variant's type.
fn from(x: Integer) -> Integer {
    match x {
        Integer::I8(value) => return cast::from_i8(value),
        Integer::I16(value) => return cast::from_i16(value),
        Integer::I32(value) => return cast::from_i32(value),
        Integer::I64(value) => return cast::from_i64(value),
        Integer::I128(value) => return cast::from_i128(value),
        Integer::U8(value) => return cast::from_u8(value),
        Integer::U16(value) => return cast::from_u16(value),
        Integer::U32(value) => return cast::from_u32(value),
        Integer::U64(value) => return cast::from_u64(value),
        Integer::U128(value) => return cast::from_u128(value),
    }
}

// Answers a conversion from the type of a variant.
fn converted(variant: u64, text: &[u8], cursor: Cursor, out: &mut [u8]) -> Reply {
    let wide = replay_wire_numbers::read_wide(text, cursor);
    let next = wide.cursor;
    let value = wide.value;
    let field = replay_wire_numbers::integer_field(next, variant, value);
    let x = field.value;
    let reply = replay_wire::begin(text, field.cursor);
    let taken = replay_wire::put_word(out, reply, 0);
    replay_wire_numbers::put_integer(out, taken, from(x))
}

// Answers a request of this crate's codes, whose code was read.
pub fn answer(code: u64, text: &[u8], cursor: Cursor, out: &mut [u8]) -> Reply {
    match code {
        0x30..=0x3D => of_integer(code, text, cursor, out),
        0x3F => equal(text, cursor, out),
        0x40..=0x49 => converted(code - 0x40, text, cursor, out),
        _ => replay_wire::none(),
    }
}
