// The requests that read, write, cast and compare floats, answered from the proved functions: 22, 50 to 55, 76 and 77
// of oracle/FORMAT.md. Test machinery: proved is that every request is taken and every answer ends.
#![tactic(auto)]

use replay_wire::{Cursor, Reply};
use types::{FloatAnswer, Refusal};

// Puts what a float read of that many bytes answered.
pub fn put_answer(out: &mut [u8], reply: Reply, answer: FloatAnswer, count: u64) -> Reply {
    match answer {
        Ok((next, value, bits)) => {
            let placed = replay_wire::taken_at(out, reply, next);
            return replay_wire_numbers::put_read_float(out, placed, value, count, bits);
        }
        Err((next, refusal)) => {
            return replay_wire::refused_at(out, reply, next, refusal);
        }
    }
}

fn read_from(text: &[u8], cursor: Cursor, bytes: &mut [u8], out: &mut [u8]) -> Reply {
    let kind = replay_wire::read_kind(text, cursor);
    let size = replay_wire::read_word(text, kind.cursor);
    let asked = replay_wire::read_source(text, size.cursor, bytes);
    let reply = replay_wire::begin(text, asked.cursor);
    let wanted = kind.kind;
    let count = asked.count;
    let place = asked.place;
    let way = asked.way;
    let answer = float::read_from(wanted, size.value, &bytes[0..count], place, way);
    put_answer(out, reply, answer, size.value)
}

// Writes a float by its bits.
fn write_bits(bytes: &mut [u8], width: u64, bits: u64) -> Result<usize, Refusal> {
    if width == 4 {
        return float::write_f32_bits(bytes, (bits % 0x1_0000_0000) as u32);
    }
    float::write_f64_bits(bytes, bits)
}

// Writes a float as a value; a NaN, whose bits a value doesn't have, by its bits.
fn write_value(bytes: &mut [u8], width: u64, bits: u64) -> Result<usize, Refusal> {
    if replay_wire_numbers::is_nan(width, bits) {
        return write_bits(bytes, width, bits);
    }
    float::write_to(bytes, replay_wire_numbers::float_of(width, bits))
}

fn write_to(text: &[u8], cursor: Cursor, bytes: &mut [u8], out: &mut [u8]) -> Reply {
    let field = replay_wire_numbers::read_float(text, cursor);
    let reply = replay_wire::begin(text, field.cursor);
    let written = write_value(bytes, field.width, field.bits);
    replay_wire::put_written(out, reply, written, bytes)
}

// Answers `write_f32` or `write_f64`, as the width says.
fn write_number(
    text: &[u8],
    cursor: Cursor,
    width: u64,
    bytes: &mut [u8],
    out: &mut [u8],
) -> Reply {
    let field = replay_wire_numbers::read_bits(text, cursor, width);
    let reply = replay_wire::begin(text, field.cursor);
    let written = write_bits(bytes, width, field.bits);
    replay_wire::put_written(out, reply, written, bytes)
}

fn is_zero(text: &[u8], cursor: Cursor, out: &mut [u8]) -> Reply {
    let field = replay_wire_numbers::read_float(text, cursor);
    let reply = replay_wire::begin(text, field.cursor);
    replay_wire::put_truth(
        out,
        reply,
        float::is_zero(replay_wire_numbers::float_of(field.width, field.bits)),
    )
}

// Answers the cast to an f32. A NaN that is taken keeps its bits.
fn as_f32(text: &[u8], cursor: Cursor, out: &mut [u8]) -> Reply {
    let field = replay_wire_numbers::read_float(text, cursor);
    let reply = replay_wire::begin(text, field.cursor);
    match float::as_f32(replay_wire_numbers::float_of(field.width, field.bits)) {
        Ok(value) => {
            let taken = replay_wire::put_word(out, reply, 0);
            if value == value {
                return replay_wire::put_word(out, taken, binary::f32_pattern(value) as u64);
            }
            return replay_wire::put_word(out, taken, field.bits);
        }
        Err(refusal) => {
            return replay_wire::refused(out, reply, refusal);
        }
    }
}

// The bits of a float of a width, widened to 64.
fn widened(width: u64, bits: u64) -> u64 {
    if width == 4 {
        return binary::f32_to_f64_bits((bits % 0x1_0000_0000) as u32);
    }
    bits
}

// Answers the cast to an f64. A NaN's bits are widened.
fn as_f64(text: &[u8], cursor: Cursor, out: &mut [u8]) -> Reply {
    let field = replay_wire_numbers::read_float(text, cursor);
    let reply = replay_wire::begin(text, field.cursor);
    let value = float::as_f64(replay_wire_numbers::float_of(field.width, field.bits));
    let taken = replay_wire::put_word(out, reply, 0);
    if value == value {
        return replay_wire::put_word(out, taken, binary::f64_pattern(value));
    }
    replay_wire::put_word(out, taken, widened(field.width, field.bits))
}

fn as_integer(text: &[u8], cursor: Cursor, out: &mut [u8]) -> Reply {
    let field = replay_wire_numbers::read_float(text, cursor);
    let reply = replay_wire::begin(text, field.cursor);
    match float_cast::as_integer(replay_wire_numbers::float_of(field.width, field.bits)) {
        Ok(value) => {
            let taken = replay_wire::put_word(out, reply, 0);
            return replay_wire_numbers::put_integer(out, taken, value);
        }
        Err(refusal) => {
            return replay_wire::refused(out, reply, refusal);
        }
    }
}

fn equal(text: &[u8], cursor: Cursor, out: &mut [u8]) -> Reply {
    let first = replay_wire_numbers::read_float(text, cursor);
    let second = replay_wire_numbers::read_float(text, first.cursor);
    let reply = replay_wire::begin(text, second.cursor);
    let a = replay_wire_numbers::float_of(first.width, first.bits);
    let b = replay_wire_numbers::float_of(second.width, second.bits);
    replay_wire::put_truth(out, reply, float::equal(a, b))
}

// Answers a request of this crate's codes, whose code was read. `bytes` holds its source, or what a writer wrote.
pub fn answer(code: u64, text: &[u8], cursor: Cursor, bytes: &mut [u8], out: &mut [u8]) -> Reply {
    match code {
        0x22 => read_from(text, cursor, bytes, out),
        0x50 => is_zero(text, cursor, out),
        0x51 => as_f32(text, cursor, out),
        0x52 => as_f64(text, cursor, out),
        0x53 => as_integer(text, cursor, out),
        0x54 => write_to(text, cursor, bytes, out),
        0x55 => equal(text, cursor, out),
        0x76 => write_number(text, cursor, 4, bytes, out),
        0x77 => write_number(text, cursor, 8, bytes, out),
        _ => replay_wire::none(),
    }
}
