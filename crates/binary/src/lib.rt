// IEEE 754 binary16, binary32 and binary64 on bits: widening, exact narrowing, and the float value of a pattern.
// A NaN's sign and payload live in patterns only: as a value there is one NaN.
#![tactic(auto)]

ghost use Rattle.std.specs.Prelude.{◌≡◌, ◌<◌};
ghost use Rattle.std.specs.Float.{binary32, binary64};
ghost use Rattle.std.specs.Float.Ieee.{of_bits, to_bits};
ghost use Rattle.binary.specs.Formats.{half, single, double, magnitude};
ghost use Rattle.binary.specs.Conversions.{
  candidate,
  widened,
  narrowed,
};

// Each conversion stands once for each pair of formats: one function for both pairs would take the widths of two
// formats as parameters and make each number here of them, and is no plainer.

// The binary32 pattern of `fraction` times 2^-24, a binary16 subnormal without its sign: the fraction
// moves up until its leading digit stands where a normal number has it.
fn subnormal_f16(fraction: u16) -> u32
    requires { fraction < 1024 }
    ensures { result ≡ candidate single (magnitude half 0 fraction) }
{
    if fraction == 0 {
        return 0;
    }
    let digits = fraction as u32;
    let up = u32::leading_zeros(digits) - 21;
    (112 - up) * 0x80_0000 + (digits << (up + 13))
}

// The binary32 pattern of a binary16 one.
pub fn f16_to_f32_bits(h: u16) -> u32
    ensures { result ≡ widened half single h }
{
    let sign = (h / 0x8000) as u32 * 0x8000_0000;
    let exponent = (h % 0x8000 / 0x400) as u32;
    let fraction = h % 0x400;
    if exponent == 0 {
        return sign + subnormal_f16(fraction);
    }
    let moved = fraction as u32 * 0x2000;
    if exponent < 31 {
        return sign + ((exponent + 112) * 0x80_0000 + moved);
    }
    if fraction == 0 {
        return sign + 0x7F80_0000;
    }
    sign + (0x7F80_0000 + (0x40_0000 + moved % 0x40_0000))
}

// The binary64 pattern of `fraction` times 2^-149, a binary32 subnormal without its sign.
fn subnormal_f32(fraction: u32) -> u64
    requires { fraction < 8388608 }
    ensures { result ≡ candidate double (magnitude single 0 fraction) }
{
    if fraction == 0 {
        return 0;
    }
    let digits = fraction as u64;
    let up = u64::leading_zeros(digits) - 40;
    (896 - up) as u64 * 0x10_0000_0000_0000 + (digits << (up + 29))
}

// The binary64 pattern of a binary32 one.
pub fn f32_to_f64_bits(b: u32) -> u64
    ensures { result ≡ widened single double b }
{
    let sign = (b / 0x8000_0000) as u64 * 0x8000_0000_0000_0000;
    let exponent = (b % 0x8000_0000 / 0x80_0000) as u64;
    let fraction = b % 0x80_0000;
    if exponent == 0 {
        return sign + subnormal_f32(fraction);
    }
    let moved = fraction as u64 * 0x2000_0000;
    if exponent < 255 {
        return sign + ((exponent + 896) * 0x10_0000_0000_0000 + moved);
    }
    if fraction == 0 {
        return sign + 0x7FF0_0000_0000_0000;
    }
    sign + (0x7FF0_0000_0000_0000 + (0x8_0000_0000_0000 + moved % 0x8_0000_0000_0000))
}

// The binary16 pattern with the sign and the magnitude of a binary32 one, if there is one.
pub fn f32_to_f16_bits(b: u32) -> Option<u16>
    ensures { result ≡ narrowed single half b }
{
    let sign = b / 0x8000_0000 * 0x8000;
    let rest = b % 0x8000_0000;
    let exponent = rest / 0x80_0000;
    let fraction = b % 0x80_0000;
    if 143 <= exponent {
        return (rest == 0x7F80_0000).then_some((sign + 0x7C00) as u16);
    }
    if 112 < exponent {
        let moved = (exponent - 112) * 0x400 + fraction / 0x2000;
        return (fraction % 0x2000 == 0).then_some((sign + moved) as u16);
    }
    if 102 < exponent {
        let significand = 0x80_0000 + fraction;
        let down = 126 - exponent;
        let kept = significand >> down;
        return (kept << down == significand).then_some((sign + kept) as u16);
    }
    (rest == 0).then_some(sign as u16)
}

// The binary32 pattern with the sign and the magnitude of a binary64 one, if there is one.
pub fn f64_to_f32_bits(b: u64) -> Option<u32>
    ensures { result ≡ narrowed double single b }
{
    let sign = b / 0x8000_0000_0000_0000 * 0x8000_0000;
    let rest = b % 0x8000_0000_0000_0000;
    let exponent = rest / 0x10_0000_0000_0000;
    let fraction = b % 0x10_0000_0000_0000;
    if 1151 <= exponent {
        return (rest == 0x7FF0_0000_0000_0000).then_some((sign + 0x7F80_0000) as u32);
    }
    if 896 < exponent {
        let moved = (exponent - 896) * 0x80_0000 + fraction / 0x2000_0000;
        return (fraction % 0x2000_0000 == 0).then_some((sign + moved) as u32);
    }
    if 873 < exponent {
        let significand = 0x10_0000_0000_0000 + fraction;
        let down = 926 - exponent;
        let kept = significand >> down;
        return (kept << down == significand).then_some((sign + kept) as u32);
    }
    (rest == 0).then_some(sign as u32)
}

// The float of a pattern; every NaN's pattern gives the one NaN.
pub fn f32_of_bits(b: u32) -> f32
    ensures { result ≡ of_bits binary32 b }
{
    if b % 0x8000_0000 <= 0x7F80_0000 {
        f32::from_bits(b)
    } else {
        0.0 / 0.0
    }
}

pub fn f64_of_bits(b: u64) -> f64
    ensures { result ≡ of_bits binary64 b }
{
    if b % 0x8000_0000_0000_0000 <= 0x7FF0_0000_0000_0000 {
        f64::from_bits(b)
    } else {
        0.0 / 0.0
    }
}

// The pattern of a float; the NaN has the one with its quiet bit alone set. A NaN alone differs from itself.
pub fn f32_pattern(x: f32) -> u32
    ensures { result ≡ to_bits binary32 x }
{
    if x == x { f32::to_bits(x) } else { 0x7FC0_0000 }
}

pub fn f64_pattern(x: f64) -> u64
    ensures { result ≡ to_bits binary64 x }
{
    if x == x {
        f64::to_bits(x)
    } else {
        0x7FF8_0000_0000_0000
    }
}
