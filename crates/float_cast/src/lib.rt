// A float as an integer. Document 01, "Casts"; format.rs, `Float::as_integer`. Both widths go by the binary64 pattern
// of their value: the exponent says where the whole number ends.
#![tactic(auto)]

ghost use Rattle.std.specs.Prelude.{◌≡◌, ◌<◌, ◌^◌};
ghost use Rattle.std.specs.Int.{w32, w64};
ghost use Rattle.binary.specs.Formats.{double, magnitude, meaning};
ghost use Rattle.binary.specs.Floats.{float_meaning};
ghost use Rattle.float_cast.specs.Integral.{clamped, integral, as_integer};
ghost use Rattle.float_cast.specs.Steps.{whole_of, whole_from};

use types::{Float, Integer, Refusal};

// The whole number of a normal binary64 number, from its fields.
fn whole_of(exponent: u64, fraction: u64) -> Option<u64>
    requires { (0 < exponent) × (exponent < 2047) × (fraction < 2 ^ 52) }
    ensures { result ≡ whole_of (magnitude double exponent fraction) }
{
    if exponent < 1023 {
        return None;
    }
    let significand = 0x10_0000_0000_0000 + fraction;
    if exponent < 1075 {
        let down = 1075 - exponent;
        let kept = significand >> down;
        return (kept << down == significand).then_some(kept);
    }
    if exponent < 1086 {
        return Some(significand << (exponent - 1075));
    }
    Some(0x8000_0000_0000_0000)
}

// The whole number of a binary64 pattern; 0 where its exponent's field is below `small`.
fn whole_from(bits: u64, small: u64) -> Option<u64>
    requires { (0 < small) × (small < 2047) }
    ensures { result ≡ whole_from small (meaning double bits) }
{
    let exponent = bits % 0x8000_0000_0000_0000 / 0x10_0000_0000_0000;
    let fraction = bits % 0x10_0000_0000_0000;
    if exponent < small {
        return Some(0);
    }
    if exponent == 2047 {
        return None;
    }
    whole_of(exponent, fraction)
}

// The nearest i32 of a sign and a whole number. Each width has its own functions down to the `From` that it asks for:
// one for both would take the bounds as parameters and cast its number back, and is no plainer.
fn clamp_i32(negative: bool, number: u64) -> i32
    ensures { result ≡ clamped 31 negative number }
{
    if negative {
        if number == 0 {
            return 0;
        }
        return little::i32_of(0xFFFF_FFFF - (number.min(0x8000_0000) - 1));
    }
    little::i32_of(number.min(0x7FFF_FFFF))
}

// The nearest i64 of a sign and a whole number.
fn clamp_i64(negative: bool, number: u64) -> i64
    ensures { result ≡ clamped 63 negative number }
{
    if negative {
        if number == 0 {
            return 0;
        }
        return little::i64_of(0xFFFF_FFFF_FFFF_FFFF - (number.min(0x8000_0000_0000_0000) - 1));
    }
    little::i64_of(number.min(0x7FFF_FFFF_FFFF_FFFF))
}

// The value of an F32 as an integer: the exponent's field of 2^-23 is 1000.
fn to_i32(value: f64) -> Result<Integer, Refusal>
    ensures { result ≡ integral 23 w32 (float_meaning value) }
{
    let bits = binary::f64_pattern(value);
    let Some(number) = whole_from(bits, 1000) else {
        return Err(Refusal::ImpreciseCastWouldLoseData);
    };
    let negative = 0x8000_0000_0000_0000 <= bits;
    Ok(cast::from_i32(clamp_i32(negative, number)))
}

// The value of an F64 as an integer: the exponent's field of 2^-52 is 971.
fn to_i64(value: f64) -> Result<Integer, Refusal>
    ensures { result ≡ integral 52 w64 (float_meaning value) }
{
    let bits = binary::f64_pattern(value);
    let Some(number) = whole_from(bits, 971) else {
        return Err(Refusal::ImpreciseCastWouldLoseData);
    };
    let negative = 0x8000_0000_0000_0000 <= bits;
    Ok(cast::from_i64(clamp_i64(negative, number)))
}

// Returns this number as an integer, if the stored value has no fractional part.
pub fn as_integer(x: Float) -> Result<Integer, Refusal>
    ensures { result ≡ as_integer x }
{
    match x {
        Float::F64(value) => to_i64(value),
        Float::F32(_) => to_i32(float::as_f64(x)),
    }
}
