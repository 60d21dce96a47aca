// Floats read from bytes and written into a lent buffer, and what a float answers of itself: whether it is zero, its
// casts and its equality. Document 01, "Bytes of an atom" and "Casts"; format.rs, `write_f32`, `write_f64` and `Float`.
#![tactic(auto)]

ghost use Rattle.std.specs.Prelude.{true, ◌≡◌, ◌+◌, ◌<◌, ◌≤◌, ◌^◌, length};
ghost use Rattle.std.specs.Float.{binary32, binary64};
ghost use Rattle.std.specs.Float.Ieee.{to_bits};
ghost use Rattle.types.specs.Forms.{allowed_float};
ghost use Rattle.lent.specs.Lent.{written_answer, written_content};
ghost use Rattle.little.specs.Le.{number_at};
ghost use Rattle.binary.specs.Formats.{single};
ghost use Rattle.binary.specs.Conversions.{narrowed_meaning};
ghost use Rattle.binary.specs.Floats.{float_meaning};
ghost use Rattle.float.specs.Floats.{float_of, float_from, float_read};
ghost use Rattle.float.specs.Bytes.{f32_bytes, f64_bytes, value_bytes};
ghost use Rattle.float.specs.Values.{
  float_value,
  at_most,
  is_zero,
  if_equal,
  as_f32,
  equal_numbers,
  equal_floats,
};

use types::{Float, FloatAnswer, Kind, Place, Refusal, Way};

// The first byte of a float atom of 2, 4 or 8 bytes: its kind, and its count less 1.
const HALF: u8 = 0x61;

const SINGLE: u8 = 0x63;

const DOUBLE: u8 = 0x67;

// Whether a count of bytes is one that floats have.
pub fn allowed(count: u64) -> bool
    ensures { result ≡ allowed_float count }
{
    matches!(count, 2 | 4 | 8)
}

// The float of that many bytes that hold the bits: a helper of readers, whose bits fit the count. Each arm returns by
// itself, as in `atom::read_body`: where they came together, a call for a short string took a fifth longer.
pub fn float_of(count: u64, bits: u64) -> Float
    requires { bits < 256 ^ count }
    ensures { result ≡ float_of count bits }
{
    match count {
        2 => return Float::F32(binary::f32_of_bits(binary::f16_to_f32_bits(bits as u16))),
        4 => return Float::F32(binary::f32_of_bits(bits as u32)),
        _ => return Float::F64(binary::f64_of_bits(bits)),
    }
}

// The bits that stand at a place: a helper of readers, which judged the count and its room.
pub fn stored_bits(source: &[u8], at: usize, count: u64) -> u64
    requires { (allowed_float count ≡ true) × (at + count ≤ length source.now) }
    ensures { (result ≡ number_at count source.now at) × (result < 256 ^ count) }
{
    match count {
        2 => little::le2(source, at),
        4 => little::le4(source, at),
        _ => little::le8(source, at),
    }
}

// The bits at a place whose bytes run past the end, those there zero: a helper of readers, which judged the count.
pub fn filled_bits(source: &[u8], at: usize, count: u64) -> u64
    requires { allowed_float count ≡ true }
    ensures { (result ≡ number_at count source.now at) × (result < 256 ^ count) }
{
    let block = little::filled(source, at);
    stored_bits(&block, 0, count)
}

// Reads a float of that many bytes, at a place within the source.
fn read_at(kind: Kind, count: u64, source: &[u8], at: usize, way: Way) -> FloatAnswer
    requires { at ≤ length source.now }
    ensures { result ≡ float_from way source.now at kind count }
{
    if kind.code() != 3 {
        return Err((Place(at), Refusal::UnexpectedKind(kind, Kind::Float)));
    }
    if !allowed(count) {
        return Err((Place(at), Refusal::unsupported(Kind::Float, count)));
    }
    if count <= (source.len() - at) as u64 {
        let bits = stored_bits(source, at, count);
        return Ok((Place(at + count as usize), float_of(count, bits), bits));
    }
    if way.is_exact() {
        return Err((Place(source.len()), Refusal::Eof));
    }
    let bits = filled_bits(source, at, count);
    Ok((Place(source.len()), float_of(count, bits), bits))
}

// Reads a floating point number given the atom `kind` and the byte count, with its stored bits.
pub fn read_from(kind: Kind, count: u64, source: &[u8], place: Place, way: Way) -> FloatAnswer
    ensures { result ≡ float_read way source.now place.0 kind count }
{
    let at = place.within(source.len());
    read_at(kind, count, source, at, way)
}

// Writes a float of 4 bytes by its bits, in 2 bytes if it is a binary16 value. A NaN's bits are kept.
pub fn write_f32_bits(out: &mut [u8], bits: u32) -> Result<usize, Refusal>
    ensures value { result ≡ written_answer (f32_bytes bits) out.old }
    ensures out_after { out.new ≡ written_content (f32_bytes bits) out.old }
{
    match binary::f32_to_f16_bits(bits) {
        Some(half) => little::put2(out, HALF, half as u64),
        None => little::put4(out, SINGLE, bits as u64),
    }
}

// Writes a float of 8 bytes by its bits, in 2 or 4 bytes if it is a binary16 or a binary32 value. A NaN's bits are
// kept.
pub fn write_f64_bits(out: &mut [u8], bits: u64) -> Result<usize, Refusal>
    ensures value { result ≡ written_answer (f64_bytes bits) out.old }
    ensures out_after { out.new ≡ written_content (f64_bytes bits) out.old }
{
    match binary::f64_to_f32_bits(bits) {
        Some(single) => write_f32_bits(out, single),
        None => little::put8(out, DOUBLE, bits),
    }
}

// Writes an atom with the given value; a NaN, which has no bits as a value, as the one with its quiet bit alone.
pub fn write_f32(out: &mut [u8], value: f32) -> Result<usize, Refusal>
    ensures value { result ≡ written_answer (f32_bytes (to_bits binary32 value)) out.old }
    ensures out_after { out.new ≡ written_content (f32_bytes (to_bits binary32 value)) out.old }
{
    write_f32_bits(out, binary::f32_pattern(value))
}

pub fn write_f64(out: &mut [u8], value: f64) -> Result<usize, Refusal>
    ensures value { result ≡ written_answer (f64_bytes (to_bits binary64 value)) out.old }
    ensures out_after { out.new ≡ written_content (f64_bytes (to_bits binary64 value)) out.old }
{
    write_f64_bits(out, binary::f64_pattern(value))
}

// Writes this value using the smallest form possible.
pub fn write_to(out: &mut [u8], value: Float) -> Result<usize, Refusal>
    ensures value { result ≡ written_answer (value_bytes value) out.old }
    ensures out_after { out.new ≡ written_content (value_bytes value) out.old }
{
    match value {
        Float::F64(float) => write_f64(out, float),
        Float::F32(float) => write_f32(out, float),
    }
}

// Whether a binary32 value is at most 2^-23 away from zero. Each width has its own function, since one for both would
// widen first and take the bounds as parameters, and is no plainer.
fn is_small_f32(value: f32) -> bool
    ensures { result ≡ at_most 23 (float_meaning value) }
{
    value <= f32::from_bits(0x3400_0000) && f32::from_bits(0xB400_0000) <= value
}

// Whether a binary64 value is at most 2^-52 away from zero.
fn is_small_f64(value: f64) -> bool
    ensures { result ≡ at_most 52 (float_meaning value) }
{
    value <= f64::from_bits(0x3CB0_0000_0000_0000) && f64::from_bits(0xBCB0_0000_0000_0000) <= value
}

// Returns true if the value contained is zero.
pub fn is_zero(x: Float) -> bool
    ensures { result ≡ is_zero x }
{
    match x {
        Float::F64(value) => is_small_f64(value),
        Float::F32(value) => is_small_f32(value),
    }
}

// The equal binary32 value, if there is one.
fn narrow(value: f64) -> Result<f32, Refusal>
    ensures { result ≡ if_equal value (narrowed_meaning single (float_meaning value)) }
{
    let Some(bits) = binary::f64_to_f32_bits(binary::f64_pattern(value)) else {
        return Err(Refusal::ImpreciseCastWouldLoseData);
    };
    Ok(binary::f32_of_bits(bits))
}

// Returns this number as an f32, if it can be done without losing precision.
pub fn as_f32(x: Float) -> Result<f32, Refusal>
    ensures { result ≡ as_f32 x }
{
    match x {
        Float::F64(value) => narrow(value),
        Float::F32(value) => Ok(value),
    }
}

// The same value in the wider format. A NaN, which alone differs from itself, stays the NaN.
fn widen(value: f32) -> f64
    ensures { result ≡ value }
{
    if value == value {
        value as f64
    } else {
        0.0 / 0.0
    }
}

// Returns this number as an f64. Of a NaN's bits, `binary::f32_to_f64_bits` is the twin.
pub fn as_f64(x: Float) -> f64
    ensures { result ≡ float_value x }
{
    match x {
        Float::F64(value) => value,
        Float::F32(value) => widen(value),
    }
}

// Equality of two binary64 values.
fn same_number(left: f64, right: f64) -> bool
    ensures { result ≡ equal_numbers (float_meaning left) (float_meaning right) }
{
    left == right
}

// Equality of numbers, across widths by widening.
pub fn equal(a: Float, b: Float) -> bool
    ensures { result ≡ equal_floats a b }
{
    same_number(as_f64(a), as_f64(b))
}
