// Zero, equality, checked casts and `From` of an integer, after `impl Integer` and `impl From` of format.rs. Document
// 01, "Casts": each cast goes by variant, and refuses with 8 what its type does not hold.
#![tactic(auto)]

ghost use Rattle.std.specs.Prelude.{◌≡◌, ◌≤◌, pos};
ghost use mir.Syntax.{signed, unsigned, w8, w16, w32, w64, w128};
ghost use Rattle.types.specs.Values.{joined, joined_signed, wide_of};
ghost use Rattle.cast.specs.Variants.{is_zero, equal_integers};
ghost use Rattle.cast.specs.Froms.{from};
ghost use Rattle.cast.specs.Casts.{as_i8, as_i16, as_i32, as_i64, as_i128, as_u8, as_u16, as_u32, as_u64, as_u128};
ghost use Rattle.cast.specs.Casts.{kept_words, as_f32, as_f64, as_float};
ghost use Rattle.cast.specs.Conversions.{Narrowed};

use std::num::TryFromIntError;
use types::{Float, Integer, Refusal, Wide};

// Whether the value is 0.
pub fn is_zero(x: Integer) -> bool
    ensures { result ≡ is_zero x }
{
    matches!(
        x,
        Integer::I8(0)
            | Integer::I16(0)
            | Integer::I32(0)
            | Integer::I64(0)
            | Integer::I128(Wide { lo: 0, hi: 0 })
            | Integer::U8(0)
            | Integer::U16(0)
            | Integer::U32(0)
            | Integer::U64(0)
            | Integer::U128(Wide { lo: 0, hi: 0 })
    )
}

// Whether variant and value are the same.
#[tactic(auto, unfolding(crate::specs::Variants::equal_integers))]
pub fn equal(a: Integer, b: Integer) -> bool
    ensures { result ≡ equal_integers a b }
{
    a == b
}

// The two words of a signed number.
pub fn wide_of_i64(value: i64) -> Wide
    ensures { result ≡ wide_of value }
{
    Wide {
        lo: value.cast_unsigned(),
        hi: if value < 0 { u64::MAX } else { 0 },
    }
}

// The two words of an unsigned number.
pub fn wide_of_u64(value: u64) -> Wide
    ensures { result ≡ wide_of (pos value) }
{
    Wide { lo: value, hi: 0 }
}

// The words of a value that is the same signed and unsigned: the top bit is clear.
fn kept_words(value: Wide) -> Result<Wide, Refusal>
    ensures { result ≡ kept_words value }
{
    if value.hi < 1 << 63 {
        Ok(value)
    } else {
        Err(Refusal::ImpreciseCastWouldLoseData)
    }
}

// The value in a type of so many bytes, if that type holds it and the variant is no wider.
#[tactic(auto, unfolding(crate::specs::Conversions::Narrowed))]
fn narrowed<T, const BYTES: usize>(x: Integer) -> Option<T>
where
    T: TryFrom<i64, Error = TryFromIntError> + TryFrom<u64, Error = TryFromIntError> + Drop,
    requires { (1 ≤ BYTES) × (BYTES ≤ 8) }
    ensures { Narrowed ⟦<T as TryFrom<i64>>⟧.try_from_gives ⟦<T as TryFrom<u64>>⟧.try_from_gives BYTES x result }
{
    match x {
        Integer::I8(value) => T::try_from(i64::from(value)).ok(),
        Integer::U8(value) => T::try_from(u64::from(value)).ok(),
        Integer::I16(value) if 2 <= BYTES => T::try_from(i64::from(value)).ok(),
        Integer::U16(value) if 2 <= BYTES => T::try_from(u64::from(value)).ok(),
        Integer::I32(value) if 4 <= BYTES => T::try_from(i64::from(value)).ok(),
        Integer::U32(value) if 4 <= BYTES => T::try_from(u64::from(value)).ok(),
        Integer::I64(value) if 8 <= BYTES => T::try_from(value).ok(),
        Integer::U64(value) if 8 <= BYTES => T::try_from(value).ok(),
        _ => None,
    }
}

// The value as an i8, or refusal 8 if it does not fit.
#[tactic(auto, unfolding(crate::specs::Casts::cast, crate::specs::Conversions::Narrowed))]
pub fn as_i8(x: Integer) -> Result<i8, Refusal>
    ensures { result ≡ as_i8 x }
{
    narrowed::<i8, 1>(x).ok_or(Refusal::ImpreciseCastWouldLoseData)
}

// The value as an i16, or refusal 8 if it does not fit.
#[tactic(auto, unfolding(crate::specs::Casts::cast, crate::specs::Conversions::Narrowed))]
pub fn as_i16(x: Integer) -> Result<i16, Refusal>
    ensures { result ≡ as_i16 x }
{
    narrowed::<i16, 2>(x).ok_or(Refusal::ImpreciseCastWouldLoseData)
}

// The value as an i32, or refusal 8 if it does not fit.
#[tactic(auto, unfolding(crate::specs::Casts::cast, crate::specs::Conversions::Narrowed))]
pub fn as_i32(x: Integer) -> Result<i32, Refusal>
    ensures { result ≡ as_i32 x }
{
    narrowed::<i32, 4>(x).ok_or(Refusal::ImpreciseCastWouldLoseData)
}

// The value as an i64, or refusal 8 if it does not fit.
#[tactic(auto, unfolding(crate::specs::Casts::cast, crate::specs::Conversions::Narrowed))]
pub fn as_i64(x: Integer) -> Result<i64, Refusal>
    ensures { result ≡ as_i64 x }
{
    narrowed::<i64, 8>(x).ok_or(Refusal::ImpreciseCastWouldLoseData)
}

// The value as a u8, or refusal 8 if it does not fit.
#[tactic(auto, unfolding(crate::specs::Casts::cast, crate::specs::Conversions::Narrowed))]
pub fn as_u8(x: Integer) -> Result<u8, Refusal>
    ensures { result ≡ as_u8 x }
{
    narrowed::<u8, 1>(x).ok_or(Refusal::ImpreciseCastWouldLoseData)
}

// The value as a u16, or refusal 8 if it does not fit.
#[tactic(auto, unfolding(crate::specs::Casts::cast, crate::specs::Conversions::Narrowed))]
pub fn as_u16(x: Integer) -> Result<u16, Refusal>
    ensures { result ≡ as_u16 x }
{
    narrowed::<u16, 2>(x).ok_or(Refusal::ImpreciseCastWouldLoseData)
}

// The value as a u32, or refusal 8 if it does not fit.
#[tactic(auto, unfolding(crate::specs::Casts::cast, crate::specs::Conversions::Narrowed))]
pub fn as_u32(x: Integer) -> Result<u32, Refusal>
    ensures { result ≡ as_u32 x }
{
    narrowed::<u32, 4>(x).ok_or(Refusal::ImpreciseCastWouldLoseData)
}

// The value as a u64, or refusal 8 if it does not fit.
#[tactic(auto, unfolding(crate::specs::Casts::cast, crate::specs::Conversions::Narrowed))]
pub fn as_u64(x: Integer) -> Result<u64, Refusal>
    ensures { result ≡ as_u64 x }
{
    narrowed::<u64, 8>(x).ok_or(Refusal::ImpreciseCastWouldLoseData)
}

// The value as an i128, or refusal 8 if it does not fit.
#[tactic(auto, unfolding(crate::specs::Casts::cast, crate::specs::Conversions::Narrowed))]
pub fn as_i128(x: Integer) -> Result<Wide, Refusal>
    ensures { result ≡ as_i128 x }
{
    match x {
        Integer::I128(value) => Ok(value),
        Integer::U128(value) => kept_words(value),
        Integer::U64(value) => Ok(wide_of_u64(value)),
        _ => narrowed::<i64, 8>(x)
            .map(wide_of_i64)
            .ok_or(Refusal::ImpreciseCastWouldLoseData),
    }
}

// The value as a u128, or refusal 8 if it does not fit.
#[tactic(auto, unfolding(crate::specs::Casts::cast, crate::specs::Conversions::Narrowed))]
pub fn as_u128(x: Integer) -> Result<Wide, Refusal>
    ensures { result ≡ as_u128 x }
{
    match x {
        Integer::U128(value) => Ok(value),
        Integer::I128(value) => kept_words(value),
        _ => narrowed::<u64, 8>(x)
            .map(wide_of_u64)
            .ok_or(Refusal::ImpreciseCastWouldLoseData),
    }
}

// The value as an f32, or refusal 8 if it is not one of the whole numbers that an f32 counts without a gap. It stands
// beside `as_f64` in full: no trait of the language casts such a number to either float, so one for both is no plainer.
pub fn as_f32(x: Integer) -> Result<f32, Refusal>
    ensures { result ≡ as_f32 x }
{
    let int = as_i32(x)?;
    if (-16777216..=16777215).contains(&int) {
        Ok(int as f32)
    } else {
        Err(Refusal::ImpreciseCastWouldLoseData)
    }
}

// The value as an f64, or refusal 8 if it is not one of the whole numbers that an f64 counts without a gap.
pub fn as_f64(x: Integer) -> Result<f64, Refusal>
    ensures { result ≡ as_f64 x }
{
    let int = as_i64(x)?;
    if (-9007199254740992..=9007199254740991).contains(&int) {
        Ok(int as f64)
    } else {
        Err(Refusal::ImpreciseCastWouldLoseData)
    }
}

// The value as an f32, or else as an f64.
pub fn as_float(x: Integer) -> Result<Float, Refusal>
    ensures { result ≡ as_float x }
{
    as_f32(x)
        .map(Float::F32)
        .or_else(|_| as_f64(x).map(Float::F64))
}

// `From`: the narrowest variant that holds the value. An unsigned value tries the unsigned type of half the width. They
// are plain functions, since `impl From` for `Integer` may stand in `types` alone; each tries another type and variant,
// so that one for all would take both as parameters.
#[tactic(auto, unfolding(crate::specs::Froms::from))]
pub fn from_u8(byte: u8) -> Integer
    ensures { result ≡ from unsigned w8 (pos byte) }
{
    Integer::U8(byte)
}

#[tactic(auto, unfolding(crate::specs::Froms::from))]
pub fn from_u16(value: u16) -> Integer
    ensures { result ≡ from unsigned w16 (pos value) }
{
    u8::try_from(value).map_or(Integer::U16(value), from_u8)
}

#[tactic(auto, unfolding(crate::specs::Froms::from))]
pub fn from_u32(value: u32) -> Integer
    ensures { result ≡ from unsigned w32 (pos value) }
{
    u16::try_from(value).map_or(Integer::U32(value), from_u16)
}

#[tactic(auto, unfolding(crate::specs::Froms::from))]
pub fn from_u64(value: u64) -> Integer
    ensures { result ≡ from unsigned w64 (pos value) }
{
    u32::try_from(value).map_or(Integer::U64(value), from_u32)
}

#[tactic(auto, unfolding(crate::specs::Froms::from))]
pub fn from_u128(value: Wide) -> Integer
    ensures { result ≡ from unsigned w128 (pos (joined value)) }
{
    if value.hi == 0 {
        from_u64(value.lo)
    } else {
        Integer::U128(value)
    }
}

// A signed value tries the signed type of half the width, and then the unsigned one.
#[tactic(auto, unfolding(crate::specs::Froms::from))]
pub fn from_i8(byte: i8) -> Integer
    ensures { result ≡ from signed w8 byte }
{
    Integer::I8(byte)
}

#[tactic(auto, unfolding(crate::specs::Froms::from))]
pub fn from_i16(value: i16) -> Integer
    ensures { result ≡ from signed w16 value }
{
    if let Ok(byte) = i8::try_from(value) {
        from_i8(byte)
    } else {
        u8::try_from(value).map_or(Integer::I16(value), from_u8)
    }
}

#[tactic(auto, unfolding(crate::specs::Froms::from))]
pub fn from_i32(value: i32) -> Integer
    ensures { result ≡ from signed w32 value }
{
    if let Ok(half) = i16::try_from(value) {
        from_i16(half)
    } else {
        u16::try_from(value).map_or(Integer::I32(value), from_u16)
    }
}

#[tactic(auto, unfolding(crate::specs::Froms::from))]
pub fn from_i64(value: i64) -> Integer
    ensures { result ≡ from signed w64 value }
{
    if let Ok(half) = i32::try_from(value) {
        from_i32(half)
    } else {
        u32::try_from(value).map_or(Integer::I64(value), from_u32)
    }
}

// A value fits an i64 if its words are those of its low one.
#[tactic(auto, unfolding(crate::specs::Froms::from))]
pub fn from_i128(value: Wide) -> Integer
    ensures { result ≡ from signed w128 (joined_signed value) }
{
    let low = value.lo.cast_signed();
    if wide_of_i64(low) == value {
        from_i64(low)
    } else if value.hi == 0 {
        from_u64(value.lo)
    } else {
        Integer::I128(value)
    }
}
