// Integers that come in as numbers, and casts that name their target by a number. The numbers are those of
// `words.Layout.variant_code`.
#![tactic(auto)]

ghost use Rattle.std.specs.Prelude.{◌≡◌};
ghost use Rattle.recast.specs.Recasts.{recast, from_words, integer_of_words};

use types::{Integer, Refusal, Wide};

// The cast to the variant of a number.
#[tactic(auto, unfolding(crate::specs::Recasts::recast))]
pub fn recast(to: u64, x: Integer) -> Result<Integer, Refusal>
    ensures { result ≡ recast to x }
{
    match to {
        0 => cast::as_i8(x).map(Integer::I8),
        1 => cast::as_i16(x).map(Integer::I16),
        2 => cast::as_i32(x).map(Integer::I32),
        3 => cast::as_i64(x).map(Integer::I64),
        4 => cast::as_i128(x).map(Integer::I128),
        5 => cast::as_u8(x).map(Integer::U8),
        6 => cast::as_u16(x).map(Integer::U16),
        7 => cast::as_u32(x).map(Integer::U32),
        8 => cast::as_u64(x).map(Integer::U64),
        9 => cast::as_u128(x).map(Integer::U128),
        _ => Err(Refusal::ImpreciseCastWouldLoseData),
    }
}

// What `From` makes of two words, for a variant's number.
fn from_words(variant: u64, value: Wide) -> Integer
    ensures { result ≡ from_words variant value }
{
    if variant < 5 {
        cast::from_i128(value)
    } else {
        cast::from_u128(value)
    }
}

// The integer of a variant's number and its value's words.
#[tactic(auto, unfolding(crate::specs::Recasts::integer_of_words))]
pub fn integer_from(variant: u64, low: u64, high: u64) -> Result<Integer, Refusal>
    ensures { result ≡ integer_of_words variant (record { lo = low; hi = high }) }
{
    recast(variant, from_words(variant, Wide { lo: low, hi: high }))
}
