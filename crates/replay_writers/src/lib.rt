// The requests that write integers, specials and strings, answered from the proved functions: 3e, 60 to 6d and 70 to 75
// of oracle/FORMAT.md. Test machinery: proved is that every request is taken and every answer ends.
#![tactic(auto)]

use replay_wire::{Cursor, Reply};
use types::{Integer, Refusal, Special};

// The variant that holds the argument of a writer, and 10 of a code that is none's.
fn variant_of(code: u64) -> u64 {
    match code {
        0x60 => 0,
        0x61 => 1,
        0x62 | 0x63 => 2,
        0x64 | 0x65 => 3,
        0x66 => 4,
        0x67 => 5,
        0x68 => 6,
        0x69 | 0x6A => 7,
        0x6B | 0x6C => 8,
        0x6D => 9,
        _ => 10,
    }
}

// Writes an argument by the writer of its type, of 24 or 48 bits where that is asked for.
fn write_number(bytes: &mut [u8], x: Integer, narrow: bool) -> Result<usize, Refusal> {
    match x {
        Integer::I8(value) => return writers::write_i8(bytes, value),
        Integer::I16(value) => return writers::write_i16(bytes, value),
        Integer::I32(value) => {
            if narrow {
                return writers::write_i24(bytes, value);
            }
            return writers::write_i32(bytes, value);
        }
        Integer::I64(value) => {
            if narrow {
                return writers::write_i48(bytes, value);
            }
            return writers::write_i64(bytes, value);
        }
        Integer::I128(value) => return writers::write_i128(bytes, value),
        Integer::U8(value) => return writers::write_u8(bytes, value),
        Integer::U16(value) => return writers::write_u16(bytes, value),
        Integer::U32(value) => {
            if narrow {
                return writers::write_u24(bytes, value);
            }
            return writers::write_u32(bytes, value);
        }
        Integer::U64(value) => {
            if narrow {
                return writers::write_u48(bytes, value);
            }
            return writers::write_u64(bytes, value);
        }
        Integer::U128(value) => return writers::write_u128(bytes, value),
    }
}

fn is_narrow(code: u64) -> bool {
    match code {
        0x62 | 0x64 | 0x69 | 0x6B => true,
        _ => false,
    }
}

fn number(code: u64, text: &[u8], cursor: Cursor, bytes: &mut [u8], out: &mut [u8]) -> Reply {
    let wide = replay_wire_numbers::read_wide(text, cursor);
    let next = wide.cursor;
    let value = wide.value;
    let field = replay_wire_numbers::integer_field(next, variant_of(code), value);
    let x = field.value;
    let reply = replay_wire::begin(text, field.cursor);
    let written = write_number(bytes, x, is_narrow(code));
    replay_wire::put_written(out, reply, written, bytes)
}

fn write_to(text: &[u8], cursor: Cursor, bytes: &mut [u8], out: &mut [u8]) -> Reply {
    let field = replay_wire_numbers::read_integer(text, cursor);
    let x = field.value;
    let reply = replay_wire::begin(text, field.cursor);
    let written = writers::write_to(bytes, x);
    replay_wire::put_written(out, reply, written, bytes)
}

fn write_special(text: &[u8], cursor: Cursor, bytes: &mut [u8], out: &mut [u8]) -> Reply {
    let value = replay_wire::read_word(text, cursor);
    let reply = replay_wire::begin(text, value.cursor);
    match Special::try_from(value.value) {
        Ok(special) => {
            let written = writers::write_special(bytes, special);
            return replay_wire::put_written(out, reply, written, bytes);
        }
        Err(_) => {
            return replay_wire::none();
        }
    }
}

fn write_bool(text: &[u8], cursor: Cursor, bytes: &mut [u8], out: &mut [u8]) -> Reply {
    let truth = replay_wire::read_word(text, cursor);
    if 1 < truth.value {
        return replay_wire::none();
    }
    let reply = replay_wire::begin(text, truth.cursor);
    let written = writers::write_bool(bytes, truth.value == 1);
    replay_wire::put_written(out, reply, written, bytes)
}

fn write_bytes(
    text: &[u8],
    cursor: Cursor,
    bytes: &mut [u8],
    scratch: &mut [u8],
    out: &mut [u8],
) -> Reply {
    let string = replay_wire::read_bytes(text, cursor, scratch);
    let reply = replay_wire::begin(text, string.cursor);
    let count = string.count;
    let written = writers::write_bytes(bytes, &scratch[0..count]);
    replay_wire::put_written(out, reply, written, bytes)
}

// Writes what a writer without an argument writes.
fn constant(bytes: &mut [u8], code: u64) -> Result<usize, Refusal> {
    match code {
        0x71 => return writers::write_none(bytes),
        0x72 => return writers::write_unit(bytes),
        _ => return writers::write_named(bytes),
    }
}

fn write_constant(
    code: u64,
    text: &[u8],
    cursor: Cursor,
    bytes: &mut [u8],
    out: &mut [u8],
) -> Reply {
    let reply = replay_wire::begin(text, cursor);
    let written = constant(bytes, code);
    replay_wire::put_written(out, reply, written, bytes)
}

// Answers a request of this crate's codes, whose code was read. `bytes` holds what is written, `scratch` a string.
pub fn answer(
    code: u64,
    text: &[u8],
    cursor: Cursor,
    bytes: &mut [u8],
    scratch: &mut [u8],
    out: &mut [u8],
) -> Reply {
    match code {
        0x3E => write_to(text, cursor, bytes, out),
        0x60..=0x6D => number(code, text, cursor, bytes, out),
        0x70 => write_special(text, cursor, bytes, out),
        0x71..=0x73 => write_constant(code, text, cursor, bytes, out),
        0x74 => write_bool(text, cursor, bytes, out),
        0x75 => write_bytes(text, cursor, bytes, scratch, out),
        _ => replay_wire::none(),
    }
}
