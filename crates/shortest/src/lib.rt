// The check for shortest form: whether each atom of a list is whole and known, and takes the fewest bytes for what it
// means. Document 02, K3.
#![tactic(auto)]

ghost use Rattle.std.specs.Prelude.{◌≡◌, IfSome, true, not, ◌&&◌, ◌+◌, ◌*◌, ◌^◌, ◌≤◌, ◌<◌, eqb, leb, length};
ghost use Rattle.types.specs.Forms.{allowed_count, allowed_float};
ghost use Rattle.little.specs.Le.{number_at};
ghost use Rattle.little.specs.Twos.{twos};
ghost use Rattle.little.specs.Counts.{holds_s, shortest_u, shortest_s};
ghost use Rattle.binary.specs.Formats.{single, double, meaning};
ghost use Rattle.shortest.specs.Meanings.{float_meant};
ghost use Rattle.shortest.specs.Forms.{shortest_header, fewest, shortest};
ghost use Rattle.shortest.specs.Checks.{check_all};
ghost use Rattle.shortest.specs.Steps.{atom_at, Stands, float_at, short_body, Fine};

use types::{Budget, Checked, Place, Places, Refusal, Skipped};

// Whether a header of two bytes or more is what the header writer gives: its last byte holds something, and a tenth
// byte none of the bits that are dropped.
fn shortest_header(source: &[u8], places: Places) -> bool
    requires { Stands source.now places × (places.first.0 + 2 ≤ places.body.0) }
    ensures { result ≡ shortest_header (atom_at source.now places) }
{
    let end = places.body.0 - 1;
    let last = source[end];
    if last == 0 {
        return false;
    }
    if end - places.first.0 == 9 {
        return last < 16;
    }
    return true;
}

// Whether an unsigned number takes the fewest bytes: the next smaller count does not hold it.
fn shortest_uint(source: &[u8], at: usize, count: u64) -> bool
    requires { (allowed_count count ≡ true) × (at + count ≤ length source.now) }
    ensures { result ≡ eqb count (shortest_u (number_at count source.now at)) }
{
    match count {
        1 => return true,
        2 => return 0x100 <= little::le2(source, at),
        3 => return 0x1_0000 <= little::le3(source, at),
        4 => return 0x100_0000 <= little::le4(source, at),
        6 => return 0x1_0000_0000 <= little::le6(source, at),
        8 => return 0x1_0000_0000_0000 <= little::le8(source, at),
        _ => return 0 < little::le8(source, at + 8),
    }
}

// Whether a number lies from one to another: in two's complement, outside the next smaller count, which holds what is
// below and what is above.
fn is_between(number: u64, low: u64, high: u64) -> bool
    ensures { result ≡ (leb low number && leb number high) }
{
    if low <= number {
        return number <= high;
    }
    return false;
}

// Whether a signed number of 16 bytes is too large for 8: its high half says more than the sign of its low half.
fn is_wide(low: u64, high: u64) -> bool
    ensures { result ≡ not (holds_s 8 (twos 16 (low + 256 ^ 8 * high))) }
{
    if low < 0x8000_0000_0000_0000 {
        return 0 < high;
    }
    return high < 0xFFFF_FFFF_FFFF_FFFF;
}

// Whether a signed number takes the fewest bytes.
fn shortest_int(source: &[u8], at: usize, count: u64) -> bool
    requires { (allowed_count count ≡ true) × (at + count ≤ length source.now) }
    ensures { result ≡ eqb count (shortest_s (twos count (number_at count source.now at))) }
{
    match count {
        1 => return true,
        2 => return is_between(little::le2(source, at), 0x80, 0xFF7F),
        3 => return is_between(little::le3(source, at), 0x8000, 0xFF_7FFF),
        4 => return is_between(little::le4(source, at), 0x80_0000, 0xFF7F_FFFF),
        6 => return is_between(little::le6(source, at), 0x8000_0000, 0xFFFF_7FFF_FFFF),
        8 => return is_between(
            little::le8(source, at),
            0x8000_0000_0000,
            0xFFFF_7FFF_FFFF_FFFF,
        ),
        _ => return is_wide(little::le8(source, at), little::le8(source, at + 8)),
    }
}

// Whether a binary32 value has no narrower width; a NaN has none.
fn shortest_single(bits: u32) -> bool
    ensures { result ≡ fewest 4 (float_meant 4 bits (meaning single bits)) }
{
    binary::f32_to_f16_bits(bits).is_none()
}

// Whether a binary64 value has no narrower width; a NaN has none.
fn shortest_double(bits: u64) -> bool
    ensures { result ≡ fewest 8 (float_meant 8 bits (meaning double bits)) }
{
    binary::f64_to_f32_bits(bits).is_none()
}

// Whether a float takes the fewest bytes.
fn shortest_float(source: &[u8], at: usize, count: u64) -> bool
    requires { (allowed_float count ≡ true) × (at + count ≤ length source.now) }
    ensures { result ≡ fewest count (float_at count source.now at) }
{
    match count {
        2 => return true,
        4 => return shortest_single(little::le4(source, at) as u32),
        _ => return shortest_double(little::le8(source, at)),
    }
}

// Whether an atom whose header is one byte takes the fewest bytes: a number by its kind, any other does.
fn shortest_body(source: &[u8], places: Places) -> bool
    requires { Stands source.now places × (places.body.0 ≡ places.first.0 + 1) }
    ensures { result ≡ shortest (atom_at source.now places) }
{
    let start = places.first.0;
    let at = places.body.0;
    let first = source[start];
    let count = (first % 16) as u64 + 1;
    match first / 32 {
        1 => return shortest_int(source, at, count),
        2 => return shortest_uint(source, at, count),
        3 => return shortest_float(source, at, count),
        _ => return true,
    }
}

// Whether an atom that the step has passed is in shortest form. Behind a header of more bytes than one that is shortest
// there is no number, since the argument is 16 at least.
fn shortest_atom(source: &[u8], places: Places) -> bool
    requires { Stands source.now places }
    ensures { result ≡ shortest (atom_at source.now places) }
{
    if places.body.0 - places.first.0 == 1 {
        return shortest_body(source, places);
    }
    return shortest_header(source, places);
}

// The body bytes of an atom whose header is this byte alone, as nearly all of a dictionary's are, and which takes the
// fewest bytes whatever they hold: a UInt of one byte, a string, a sequence.
fn short_body(first: u8) -> Option<usize>
    ensures { result ≡ short_body first }
{
    if first == 0x40 {
        return Some(1);
    }
    if first / 16 == 14 {
        return Some((first % 16) as usize);
    }
    if first / 16 == 8 {
        return Some(0);
    }
    None
}

// The place after an atom that is accepted by its first byte.
fn short_end(source: &[u8], at: usize) -> Option<usize>
    requires { at < length source.now }
    ensures { IfSome result (λ end. Fine source.now at end) }
{
    let body = short_body(source[at])?;
    let from = at + 1;
    if body <= source.len() - from {
        return Some(from + body);
    }
    None
}

// Checks that each of a list's atoms is whole, known and in shortest form, or refuses the first that is not, at the
// place where it starts. Each tells where the next one starts, so that there is no list to go over with `for`.
pub fn check(source: &[u8]) -> Checked
    ensures { result ≡ check_all source.now }
{
    let mut at = Place(0);
    while at.0 < source.len() {
        if let Some(end) = short_end(source, at.0) {
            at = Place(end);
            continue;
        }
        match dictionary::skip_atom(source, at, Budget(0xFFFF_FFFF_FFFF_FFFF)) {
            Ok((next, _, places, _)) => {
                if !shortest_atom(source, places) {
                    return Err((Refusal::NotShortest, at));
                }
                at = next;
            }
            Err((_, _, refusal)) => return Err((refusal, at)),
        }
    }
    Ok(())
}
