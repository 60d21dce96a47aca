// The writers of numbers, specials and strings into a lent buffer. Document 01, "Bytes of an atom" and "Refusals by
// number"; format.rs, `write_special` to `write_bytes`, and `Integer::write_to`. A writer of a number tries the next
// smaller one first, so that it writes the smallest count that holds the value. There is one of each width, as in the
// original, since the exports and docs/PROMISES.md name each.
#![tactic(auto)]

ghost use Rattle.std.specs.Prelude.{◌≡◌};
ghost use Rattle.std.specs.Int.Signed.{mag};
ghost use Rattle.types.specs.declared.Special.TheVariants.{None, Unit, Named};
ghost use Rattle.lent.specs.Lent.{written_answer, written_content};
ghost use Rattle.little.specs.Counts.{holds_u, holds_s};
ghost use Rattle.types.specs.Values.{joined, joined_signed};
ghost use Rattle.writers.specs.Bytes.{signed_bytes, unsigned_bytes, value_bytes, special_bytes, truth, bytes_bytes, held_answer, held_content};

use types::{Integer, Kind, Refusal, Special, Wide};

// Writes a special atom.
pub fn write_special(out: &mut [u8], special: Special) -> Result<usize, Refusal>
    ensures value { result ≡ written_answer (special_bytes special) out.old }
    ensures out_after { out.new ≡ written_content (special_bytes special) out.old }
{
    header::write_atom_header(out, Kind::Special, special.code())
}

// Writes None.
pub fn write_none(out: &mut [u8]) -> Result<usize, Refusal>
    ensures value { result ≡ written_answer (special_bytes None) out.old }
    ensures out_after { out.new ≡ written_content (special_bytes None) out.old }
{
    write_special(out, Special::None)
}

// Writes Unit.
pub fn write_unit(out: &mut [u8]) -> Result<usize, Refusal>
    ensures value { result ≡ written_answer (special_bytes Unit) out.old }
    ensures out_after { out.new ≡ written_content (special_bytes Unit) out.old }
{
    write_special(out, Special::Unit)
}

// Writes Named.
pub fn write_named(out: &mut [u8]) -> Result<usize, Refusal>
    ensures value { result ≡ written_answer (special_bytes Named) out.old }
    ensures out_after { out.new ≡ written_content (special_bytes Named) out.old }
{
    write_special(out, Special::Named)
}

// Writes True or False.
pub fn write_bool(out: &mut [u8], boolean: bool) -> Result<usize, Refusal>
    ensures value { result ≡ written_answer (special_bytes (truth boolean)) out.old }
    ensures out_after { out.new ≡ written_content (special_bytes (truth boolean)) out.old }
{
    if boolean {
        return write_special(out, Special::True);
    }
    write_special(out, Special::False)
}

// A value, or its complement if it is negative: n bytes hold the value if this is below half of 256 ^ n.
fn magnitude(value: i64) -> u64
    ensures { result ≡ mag value }
{
    if 0 <= value {
        return value as u64;
    }
    (!value) as u64
}

// Writes an Int of 1 byte.
pub fn write_i8(out: &mut [u8], value: i8) -> Result<usize, Refusal>
    ensures value { result ≡ written_answer (signed_bytes value) out.old }
    ensures out_after { out.new ≡ written_content (signed_bytes value) out.old }
{
    little::put1(out, 0x20, little::bits_of_i8(value))
}

// Writes an Int of at most 2 bytes.
pub fn write_i16(out: &mut [u8], value: i16) -> Result<usize, Refusal>
    ensures value { result ≡ written_answer (signed_bytes value) out.old }
    ensures out_after { out.new ≡ written_content (signed_bytes value) out.old }
{
    if magnitude(value as i64) < 0x80 {
        return write_i8(out, value as i8);
    }
    little::put2(out, 0x21, little::bits_of_i16(value))
}

// Writes an Int of at most 3 bytes; refusal 8 of a value outside them.
pub fn write_i24(out: &mut [u8], value: i32) -> Result<usize, Refusal>
    ensures value { result ≡ held_answer (holds_s 3 value) (signed_bytes value) out.old }
    ensures out_after { out.new ≡ held_content (holds_s 3 value) (signed_bytes value) out.old }
{
    let size = magnitude(value as i64);
    if 0x80_0000 <= size {
        return Err(Refusal::ImpreciseCastWouldLoseData);
    }
    if size < 0x8000 {
        return write_i16(out, value as i16);
    }
    little::put3(out, 0x22, little::bits_of_i32(value))
}

// Writes an Int of at most 4 bytes.
pub fn write_i32(out: &mut [u8], value: i32) -> Result<usize, Refusal>
    ensures value { result ≡ written_answer (signed_bytes value) out.old }
    ensures out_after { out.new ≡ written_content (signed_bytes value) out.old }
{
    if magnitude(value as i64) < 0x80_0000 {
        return write_i24(out, value);
    }
    little::put4(out, 0x23, little::bits_of_i32(value))
}

// Writes an Int of at most 6 bytes; refusal 8 of a value outside them.
pub fn write_i48(out: &mut [u8], value: i64) -> Result<usize, Refusal>
    ensures value { result ≡ held_answer (holds_s 6 value) (signed_bytes value) out.old }
    ensures out_after { out.new ≡ held_content (holds_s 6 value) (signed_bytes value) out.old }
{
    let size = magnitude(value);
    if 0x8000_0000_0000 <= size {
        return Err(Refusal::ImpreciseCastWouldLoseData);
    }
    if size < 0x8000_0000 {
        return write_i32(out, value as i32);
    }
    little::put6(out, 0x25, little::bits_of_i64(value))
}

// Writes an Int of at most 8 bytes.
pub fn write_i64(out: &mut [u8], value: i64) -> Result<usize, Refusal>
    ensures value { result ≡ written_answer (signed_bytes value) out.old }
    ensures out_after { out.new ≡ written_content (signed_bytes value) out.old }
{
    if magnitude(value) < 0x8000_0000_0000 {
        return write_i48(out, value);
    }
    little::put8(out, 0x27, little::bits_of_i64(value))
}

// Whether the low word alone holds a signed value: above it stands nothing but its sign.
fn low_word_holds(value: Wide) -> bool
    ensures { result ≡ holds_s 8 (joined_signed value) }
{
    let lo = value.lo;
    let hi = value.hi;
    if hi == 0 {
        return lo < 0x8000_0000_0000_0000;
    }
    if hi == 0xFFFF_FFFF_FFFF_FFFF {
        return 0x8000_0000_0000_0000 <= lo;
    }
    false
}

// Writes an Int of at most 16 bytes, whose value is two words.
pub fn write_i128(out: &mut [u8], value: Wide) -> Result<usize, Refusal>
    ensures value { result ≡ written_answer (signed_bytes (joined_signed value)) out.old }
    ensures out_after { out.new ≡ written_content (signed_bytes (joined_signed value)) out.old }
{
    let lo = value.lo;
    if low_word_holds(value) {
        return write_i64(out, little::i64_of(lo));
    }
    little::put16(out, 0x2F, lo, value.hi)
}

// Writes a UInt of 1 byte.
pub fn write_u8(out: &mut [u8], value: u8) -> Result<usize, Refusal>
    ensures value { result ≡ written_answer (unsigned_bytes value) out.old }
    ensures out_after { out.new ≡ written_content (unsigned_bytes value) out.old }
{
    little::put1(out, 0x40, value as u64)
}

// Writes a UInt of at most 2 bytes.
pub fn write_u16(out: &mut [u8], value: u16) -> Result<usize, Refusal>
    ensures value { result ≡ written_answer (unsigned_bytes value) out.old }
    ensures out_after { out.new ≡ written_content (unsigned_bytes value) out.old }
{
    if value < 0x100 {
        return write_u8(out, value as u8);
    }
    little::put2(out, 0x41, value as u64)
}

// Writes a UInt of at most 3 bytes; refusal 8 of a value outside them.
pub fn write_u24(out: &mut [u8], value: u32) -> Result<usize, Refusal>
    ensures value { result ≡ held_answer (holds_u 3 value) (unsigned_bytes value) out.old }
    ensures out_after { out.new ≡ held_content (holds_u 3 value) (unsigned_bytes value) out.old }
{
    if 0x100_0000 <= value {
        return Err(Refusal::ImpreciseCastWouldLoseData);
    }
    if value < 0x1_0000 {
        return write_u16(out, value as u16);
    }
    little::put3(out, 0x42, value as u64)
}

// Writes a UInt of at most 4 bytes.
pub fn write_u32(out: &mut [u8], value: u32) -> Result<usize, Refusal>
    ensures value { result ≡ written_answer (unsigned_bytes value) out.old }
    ensures out_after { out.new ≡ written_content (unsigned_bytes value) out.old }
{
    if value < 0x100_0000 {
        return write_u24(out, value);
    }
    little::put4(out, 0x43, value as u64)
}

// Writes a UInt of at most 6 bytes; refusal 8 of a value outside them.
pub fn write_u48(out: &mut [u8], value: u64) -> Result<usize, Refusal>
    ensures value { result ≡ held_answer (holds_u 6 value) (unsigned_bytes value) out.old }
    ensures out_after { out.new ≡ held_content (holds_u 6 value) (unsigned_bytes value) out.old }
{
    if 0x1_0000_0000_0000 <= value {
        return Err(Refusal::ImpreciseCastWouldLoseData);
    }
    if value < 0x1_0000_0000 {
        return write_u32(out, value as u32);
    }
    little::put6(out, 0x45, value)
}

// Writes a UInt of at most 8 bytes.
pub fn write_u64(out: &mut [u8], value: u64) -> Result<usize, Refusal>
    ensures value { result ≡ written_answer (unsigned_bytes value) out.old }
    ensures out_after { out.new ≡ written_content (unsigned_bytes value) out.old }
{
    if value < 0x1_0000_0000_0000 {
        return write_u48(out, value);
    }
    little::put8(out, 0x47, value)
}

// Writes a UInt of at most 16 bytes, whose value is two words.
pub fn write_u128(out: &mut [u8], value: Wide) -> Result<usize, Refusal>
    ensures value { result ≡ written_answer (unsigned_bytes (joined value)) out.old }
    ensures out_after { out.new ≡ written_content (unsigned_bytes (joined value)) out.old }
{
    let lo = value.lo;
    let hi = value.hi;
    if hi == 0 {
        return write_u64(out, lo);
    }
    little::put16(out, 0x4F, lo, hi)
}

// Writes an integer's value in the kind of its variant, in the smallest form possible.
pub fn write_to(out: &mut [u8], integer: Integer) -> Result<usize, Refusal>
    ensures value { result ≡ written_answer (value_bytes integer) out.old }
    ensures out_after { out.new ≡ written_content (value_bytes integer) out.old }
{
    match integer {
        Integer::I8(value) => return write_i8(out, value),
        Integer::I16(value) => return write_i16(out, value),
        Integer::I32(value) => return write_i32(out, value),
        Integer::I64(value) => return write_i64(out, value),
        Integer::I128(value) => return write_i128(out, value),
        Integer::U8(value) => return write_u8(out, value),
        Integer::U16(value) => return write_u16(out, value),
        Integer::U32(value) => return write_u32(out, value),
        Integer::U64(value) => return write_u64(out, value),
        Integer::U128(value) => return write_u128(out, value),
    }
}

// Writes a string: its header, then its bytes. The room of both is judged before either is written.
pub fn write_bytes(out: &mut [u8], value: &[u8]) -> Result<usize, Refusal>
    ensures value { result ≡ written_answer (bytes_bytes value.now) out.old }
    ensures out_after { out.new ≡ written_content (bytes_bytes value.now) out.old }
{
    let head = header::header_length(value.len() as u64);
    let needed = head + value.len();
    if out.len() < needed {
        return Err(Refusal::no_room(needed));
    }
    let _ = header::write_atom_header(out, Kind::Bytes, value.len() as u64);
    lent::copy_in(&mut out[head..], value);
    Ok(needed)
}
