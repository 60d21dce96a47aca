// Integers read from bytes. Document 01, "Bytes of an atom"; format.rs, `Integer::read_from`. The functions that have a
// `requires` are helpers of the readers here and of the atom's, which judge the count and the room first.
#![tactic(auto)]

ghost use Rattle.std.specs.Prelude.{◌≡◌, true, ◌+◌, ◌≤◌, ◌<◌, length};
ghost use Rattle.little.specs.Le.{number_at};
ghost use Rattle.types.specs.Values.{words};
ghost use Rattle.types.specs.Forms.{allowed_count};
ghost use Rattle.integer.specs.Integers.{int_of, uint_of, integer_kind, integer_of, integer_read};

use types::{Integer, IntegerAnswer, Kind, Place, Refusal, Way, Wide};

// Whether a count of bytes is one that integers have. Each has an arm of its own, which is compiled to one look into a
// mask: of one pattern come a range, a mask and a branch between them, and a run over integers takes half as long again.
pub fn allowed(count: u64) -> bool
    ensures { result ≡ allowed_count count }
{
    match count {
        1 => true,
        2 => true,
        3 => true,
        4 => true,
        6 => true,
        8 => true,
        16 => true,
        _ => false,
    }
}

// The two words of 16 bytes, whose room the caller judged.
fn wide_at(source: &[u8], at: usize) -> Wide
    requires { at + 16 ≤ length source.now }
    ensures { result ≡ words (number_at 16 source.now at) }
{
    Wide {
        lo: little::le8(source, at),
        hi: little::le8(source, at + 8),
    }
}

// The signed integer of an allowed count of bytes, whose room the caller judged.
fn int_at(source: &[u8], at: usize, count: u64) -> Integer
    requires { (allowed_count count ≡ true) × (at + count ≤ length source.now) }
    ensures { result ≡ int_of count (number_at count source.now at) }
{
    match count {
        1 => Integer::I8(little::i8_of(little::le1(source, at))),
        2 => Integer::I16(little::i16_of(little::le2(source, at))),
        3 => Integer::I32(little::i24_of(little::le3(source, at))),
        4 => Integer::I32(little::i32_of(little::le4(source, at))),
        6 => Integer::I64(little::i48_of(little::le6(source, at))),
        8 => Integer::I64(little::i64_of(little::le8(source, at))),
        _ => Integer::I128(wide_at(source, at)),
    }
}

// The unsigned integer of an allowed count of bytes, whose room the caller judged. No arm is one of the signed
// integer's, so that one function for both would be two all the same.
fn uint_at(source: &[u8], at: usize, count: u64) -> Integer
    requires { (allowed_count count ≡ true) × (at + count ≤ length source.now) }
    ensures { result ≡ uint_of count (number_at count source.now at) }
{
    match count {
        1 => Integer::U8(little::le1(source, at) as u8),
        2 => Integer::U16(little::le2(source, at) as u16),
        3 => Integer::U32(little::le3(source, at) as u32),
        4 => Integer::U32(little::le4(source, at) as u32),
        6 => Integer::U64(little::le6(source, at)),
        8 => Integer::U64(little::le8(source, at)),
        _ => Integer::U128(wide_at(source, at)),
    }
}

// Whether a kind is one of integers.
fn is_integer(kind: Kind) -> bool
    ensures { result ≡ integer_kind kind }
{
    matches!(kind, Kind::Int | Kind::UInt)
}

// The integer of a kind, whose room the caller judged: a helper of readers.
pub fn integer_at(kind: Kind, source: &[u8], at: usize, count: u64) -> Integer
    requires { (allowed_count count ≡ true) × (at + count ≤ length source.now) }
    ensures { result ≡ integer_of kind count (number_at count source.now at) }
{
    match kind {
        Kind::Int => int_at(source, at, count),
        _ => uint_at(source, at, count),
    }
}

// The integer of a kind, bytes past the end zero: a helper of readers.
pub fn filled_integer(kind: Kind, source: &[u8], at: usize, count: u64) -> Integer
    requires { (allowed_count count ≡ true) × (at ≤ length source.now) }
    ensures { result ≡ integer_of kind count (number_at count source.now at) }
{
    let block = little::filled(source, at);
    integer_at(kind, &block, 0, count)
}

// Reads an integer of a kind and a count of bytes (the argument of the atom's header, plus one) at a place, under a
// way.
pub fn read_from(kind: Kind, count: u64, source: &[u8], place: Place, way: Way) -> IntegerAnswer
    ensures { result ≡ integer_read way source.now place.0 kind count }
{
    let at = place.within(source.len());
    if !is_integer(kind) {
        return Err((Place(at), Refusal::UnexpectedKind(kind, Kind::Int)));
    }
    if !allowed(count) {
        return Err((Place(at), Refusal::unsupported(kind, count)));
    }
    if count <= (source.len() - at) as u64 {
        return Ok((
            Place(at + count as usize),
            integer_at(kind, source, at, count),
        ));
    }
    if way.is_exact() {
        return Err((Place(source.len()), Refusal::Eof));
    }
    Ok((Place(source.len()), filled_integer(kind, source, at, count)))
}
