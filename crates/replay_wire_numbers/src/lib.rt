// The fields that are numbers, oracle/FORMAT.md: wides, integers by variant, floats by their bits. Test machinery:
// proved is that every function takes every input and ends.
#![tactic(auto)]

use replay_wire::{Cursor, Reply};
use types::{Float, Integer, Refusal, Wide};

// Two words, the low one first.
#[derive(Clone, Copy)]
pub struct WideField {
    pub cursor: Cursor,
    pub value: Wide,
}

// An integer by its variant.
#[derive(Clone, Copy)]
pub struct IntegerField {
    pub cursor: Cursor,
    pub value: Integer,
}

// A float by its width in bytes and its bits.
#[derive(Clone, Copy)]
pub struct FloatField {
    pub cursor: Cursor,
    pub width: u64,
    pub bits: u64,
}

// A value in two's complement of 128 bits: its own bits, and ones above them where it is negative.
fn sign_extended(bits: u64, sign: u64, above: u64) -> Wide {
    if bits < sign {
        return Wide { lo: bits, hi: 0 };
    }
    Wide {
        lo: bits | above,
        hi: 0xFFFF_FFFF_FFFF_FFFF,
    }
}

pub fn of_i8(value: i8) -> Wide {
    sign_extended(little::bits_of_i8(value), 0x80, 0xFFFF_FFFF_FFFF_FF00)
}

pub fn of_i16(value: i16) -> Wide {
    sign_extended(little::bits_of_i16(value), 0x8000, 0xFFFF_FFFF_FFFF_0000)
}

pub fn of_i32(value: i32) -> Wide {
    sign_extended(
        little::bits_of_i32(value),
        0x8000_0000,
        0xFFFF_FFFF_0000_0000,
    )
}

pub fn of_i64(value: i64) -> Wide {
    sign_extended(little::bits_of_i64(value), 0x8000_0000_0000_0000, 0)
}

pub fn unsigned(value: u64) -> Wide {
    Wide { lo: value, hi: 0 }
}

// The value of an integer in two's complement of 128 bits.
pub fn wide_of(x: Integer) -> Wide {
    match x {
        Integer::I8(v) => return of_i8(v),
        Integer::I16(v) => return of_i16(v),
        Integer::I32(v) => return of_i32(v),
        Integer::I64(v) => return of_i64(v),
        Integer::I128(v) => return v,
        Integer::U8(v) => return unsigned(v as u64),
        Integer::U16(v) => return unsigned(v as u64),
        Integer::U32(v) => return unsigned(v as u64),
        Integer::U64(v) => return unsigned(v),
        Integer::U128(v) => return v,
    }
}

// The integer of a variant with the lowest bits of a wide.
fn integer_of(variant: u64, value: Wide) -> Integer {
    let lo = value.lo;
    match variant {
        0 => return Integer::I8(little::i8_of(lo % 0x100)),
        1 => return Integer::I16(little::i16_of(lo % 0x1_0000)),
        2 => return Integer::I32(little::i32_of(lo % 0x1_0000_0000)),
        3 => return Integer::I64(little::i64_of(lo)),
        4 => return Integer::I128(value),
        5 => return Integer::U8((lo % 0x100) as u8),
        6 => return Integer::U16((lo % 0x1_0000) as u16),
        7 => return Integer::U32((lo % 0x1_0000_0000) as u32),
        8 => return Integer::U64(lo),
        _ => return Integer::U128(value),
    }
}

fn variant_of(x: Integer) -> u64 {
    match x {
        Integer::I8(_) => 0,
        Integer::I16(_) => 1,
        Integer::I32(_) => 2,
        Integer::I64(_) => 3,
        Integer::I128(_) => 4,
        Integer::U8(_) => 5,
        Integer::U16(_) => 6,
        Integer::U32(_) => 7,
        Integer::U64(_) => 8,
        Integer::U128(_) => 9,
    }
}

// Reads a wide.
pub fn read_wide(text: &[u8], cursor: Cursor) -> WideField {
    let lo = replay_wire::read_word(text, cursor);
    let hi = replay_wire::read_word(text, lo.cursor);
    let next = hi.cursor;
    WideField {
        cursor: next,
        value: Wide {
            lo: lo.value,
            hi: hi.value,
        },
    }
}

// Whether an integer has the value that its field gave.
fn holds(x: Integer, value: Wide) -> bool {
    let told = wide_of(x);
    told.lo == value.lo && told.hi == value.hi
}

// The integer of a variant with a value; not good where the variant doesn't hold it.
pub fn integer_field(cursor: Cursor, variant: u64, value: Wide) -> IntegerField {
    let x = integer_of(variant, value);
    IntegerField {
        cursor: Cursor {
            at: cursor.at,
            good: cursor.good && variant < 10 && holds(x, value),
        },
        value: x,
    }
}

// Reads an integer.
pub fn read_integer(text: &[u8], cursor: Cursor) -> IntegerField {
    let variant = replay_wire::read_word(text, cursor);
    let wide = read_wide(text, variant.cursor);
    let next = wide.cursor;
    let value = wide.value;
    integer_field(next, variant.value, value)
}

// Whether a float of a width has those bits.
fn has_width(width: u64, bits: u64) -> bool {
    match width {
        4 => bits < 0x1_0000_0000,
        8 => true,
        _ => false,
    }
}

// Reads the bits of a float of a width.
pub fn read_bits(text: &[u8], cursor: Cursor, width: u64) -> FloatField {
    let bits = replay_wire::read_word(text, cursor);
    let next = bits.cursor;
    FloatField {
        cursor: Cursor {
            at: next.at,
            good: next.good && has_width(width, bits.value),
        },
        width,
        bits: bits.value,
    }
}

// Reads a float: its width, then its bits.
pub fn read_float(text: &[u8], cursor: Cursor) -> FloatField {
    let width = replay_wire::read_word(text, cursor);
    read_bits(text, width.cursor, width.value)
}

// Whether a float of a width with those bits is a NaN.
pub fn is_nan(width: u64, bits: u64) -> bool {
    if width == 4 {
        return 0x7F80_0000 < bits % 0x8000_0000;
    }
    0x7FF0_0000_0000_0000 < bits % 0x8000_0000_0000_0000
}

// The float of a width with those bits.
pub fn float_of(width: u64, bits: u64) -> Float {
    if width == 4 {
        return Float::F32(binary::f32_of_bits((bits % 0x1_0000_0000) as u32));
    }
    Float::F64(binary::f64_of_bits(bits))
}

// Puts a wide.
pub fn put_wide(out: &mut [u8], reply: Reply, value: Wide) -> Reply {
    let low = replay_wire::put_word(out, reply, value.lo);
    replay_wire::put_word(out, low, value.hi)
}

// Puts an integer: its variant, then its value.
pub fn put_integer(out: &mut [u8], reply: Reply, x: Integer) -> Reply {
    let variant = replay_wire::put_word(out, reply, variant_of(x));
    put_wide(out, variant, wide_of(x))
}

// Puts what a cast answered, its value as a wide.
pub fn put_cast(out: &mut [u8], reply: Reply, answer: Result<Wide, Refusal>) -> Reply {
    match answer {
        Ok(value) => {
            let taken = replay_wire::put_word(out, reply, 0);
            return put_wide(out, taken, value);
        }
        Err(refusal) => {
            return replay_wire::refused(out, reply, refusal);
        }
    }
}

// The bits of a float of 4 bytes that was read from that many: those stored, widened from 2.
fn told_single(count: u64, bits: u64) -> u32 {
    if count == 2 {
        return binary::f16_to_f32_bits((bits % 0x1_0000) as u16);
    }
    (bits % 0x1_0000_0000) as u32
}

// Puts the bits, and those of the value besides where they are others, so that the answer differs.
fn put_both(out: &mut [u8], reply: Reply, told: u64, pattern: u64, number: bool) -> Reply {
    let put = replay_wire::put_word(out, reply, told);
    if number && pattern != told {
        return replay_wire::put_word(out, put, pattern);
    }
    put
}

// Puts a float that was read from that many bytes with those bits. A NaN's value has no bits of its own.
pub fn put_read_float(out: &mut [u8], reply: Reply, x: Float, count: u64, bits: u64) -> Reply {
    match x {
        Float::F32(value) => {
            let width = replay_wire::put_word(out, reply, 4);
            let told = told_single(count, bits) as u64;
            return put_both(
                out,
                width,
                told,
                binary::f32_pattern(value) as u64,
                value == value,
            );
        }
        Float::F64(value) => {
            let width = replay_wire::put_word(out, reply, 8);
            return put_both(out, width, bits, binary::f64_pattern(value), value == value);
        }
    }
}

// Puts a float by its value.
pub fn put_float(out: &mut [u8], reply: Reply, x: Float) -> Reply {
    match x {
        Float::F32(value) => {
            let width = replay_wire::put_word(out, reply, 4);
            return replay_wire::put_word(out, width, binary::f32_pattern(value) as u64);
        }
        Float::F64(value) => {
            let width = replay_wire::put_word(out, reply, 8);
            return replay_wire::put_word(out, width, binary::f64_pattern(value));
        }
    }
}
