// Little-endian numbers over the byte count, and two's complement: straight-line reads and writes. Document 01, "Bytes
// of an atom": "little endian, Int in two's complement". Helpers of the integer and float crates: a function here that
// has a `requires` leaves that judgement to its caller.
#![tactic(auto)]

ghost use Rattle.std.specs.Prelude.{◌≡◌, ◌∷◌, ◌++◌, ◌+◌, ◌<◌, ◌≤◌, ◌^◌, length, get_or};
ghost use Rattle.lent.specs.Lent.{written_answer, written_content};
ghost use Rattle.little.specs.Le.{to_le, number_at, filled_at};
ghost use Rattle.little.specs.Twos.{twos, twos_bits};

use types::Refusal;

// A byte as a number of 64 bits.
pub fn byte64(b: u8) -> u64
    ensures { (result ≡ b) × (result < 256) }
{
    b as u64
}

// The number of N bytes, by way of a block of eight, which is compiled to loads as wide as can be.
fn number<const N: usize>(s: &[u8], at: usize) -> u64
    requires { (N ≤ 8) × (at + N ≤ length s.now) }
    ensures { (result ≡ number_at N s.now at) × (result < 256 ^ N) }
{
    let mut block = [0u8; 8];
    block[0..N].copy_from_slice(&s[at..at + N]);
    u64::from_le_bytes(block)
}

// The number of 1 byte, whose room the caller judged: a helper of readers.
pub fn le1(s: &[u8], at: usize) -> u64
    requires { at + 1 ≤ length s.now }
    ensures { (result ≡ number_at 1 s.now at) × (result < 256 ^ 1) }
{
    number::<1>(s, at)
}

// The number of 2 bytes, whose room the caller judged: a helper of readers.
pub fn le2(s: &[u8], at: usize) -> u64
    requires { at + 2 ≤ length s.now }
    ensures { (result ≡ number_at 2 s.now at) × (result < 256 ^ 2) }
{
    number::<2>(s, at)
}

// The number of 3 bytes, whose room the caller judged: a helper of readers.
pub fn le3(s: &[u8], at: usize) -> u64
    requires { at + 3 ≤ length s.now }
    ensures { (result ≡ number_at 3 s.now at) × (result < 256 ^ 3) }
{
    number::<3>(s, at)
}

// The number of 4 bytes, whose room the caller judged: a helper of readers.
pub fn le4(s: &[u8], at: usize) -> u64
    requires { at + 4 ≤ length s.now }
    ensures { (result ≡ number_at 4 s.now at) × (result < 256 ^ 4) }
{
    number::<4>(s, at)
}

// The number of 6 bytes, whose room the caller judged: a helper of readers.
pub fn le6(s: &[u8], at: usize) -> u64
    requires { at + 6 ≤ length s.now }
    ensures { (result ≡ number_at 6 s.now at) × (result < 256 ^ 6) }
{
    number::<6>(s, at)
}

// The number of 8 bytes, whose room the caller judged: a helper of readers.
pub fn le8(s: &[u8], at: usize) -> u64
    requires { at + 8 ≤ length s.now }
    ensures { (result ≡ number_at 8 s.now at) × (result < 256 ^ 8) }
{
    number::<8>(s, at)
}

// The byte at a place and a distance from it, and zero past the end.
pub fn byte_at(s: &[u8], at: usize, i: usize) -> u64
    ensures { (result ≡ get_or s.now (at + i) 0) × (result < 256) }
{
    if at < s.len() && i < s.len() - at {
        byte64(s[at + i])
    } else {
        0
    }
}

// The 16 bytes at a place, those past the end zero. Filled reading of a number is reading it in this block, where all
// its bytes are there, by the functions that read it in a source.
pub fn filled(s: &[u8], at: usize) -> [u8; 16]
    ensures { result ≡ filled_at 16 s.now at }
{
    let mut block = [0u8; 16];
    for i in 0..16 {
        block[i] = byte_at(s, at, i) as u8;
    }
    block
}

// The value of N bytes in two's complement: their sign bit goes to the top, and comes back with its copies.
fn twos_of<const N: u32>(v: u64) -> i64
    requires { (0 < N) × (N ≤ 8) × (v < 256 ^ N) }
    ensures { result ≡ twos N v }
{
    let above = 64 - 8 * N;
    (v << above).cast_signed() >> above
}

// The value of 1 byte in two's complement: a helper of readers, whose number fits it.
pub fn i8_of(v: u64) -> i8
    requires { v < 256 ^ 1 }
    ensures { result ≡ twos 1 v }
{
    (v as u8).cast_signed()
}

// The value of 2 bytes in two's complement: a helper of readers, whose number fits them.
pub fn i16_of(v: u64) -> i16
    requires { v < 256 ^ 2 }
    ensures { result ≡ twos 2 v }
{
    (v as u16).cast_signed()
}

// The value of 3 bytes in two's complement: a helper of readers, whose number fits them.
pub fn i24_of(v: u64) -> i32
    requires { v < 256 ^ 3 }
    ensures { result ≡ twos 3 v }
{
    twos_of::<3>(v) as i32
}

// The value of 4 bytes in two's complement: a helper of readers, whose number fits them.
pub fn i32_of(v: u64) -> i32
    requires { v < 256 ^ 4 }
    ensures { result ≡ twos 4 v }
{
    (v as u32).cast_signed()
}

// The value of 6 bytes in two's complement: a helper of readers, whose number fits them.
pub fn i48_of(v: u64) -> i64
    requires { v < 256 ^ 6 }
    ensures { result ≡ twos 6 v }
{
    twos_of::<6>(v)
}

// The value of 8 bytes in two's complement.
pub fn i64_of(v: u64) -> i64
    ensures { result ≡ twos 8 v }
{
    v.cast_signed()
}

// What 1 byte holds for a value.
pub fn bits_of_i8(v: i8) -> u64
    ensures { (result ≡ twos_bits 1 v) × (result < 256 ^ 1) }
{
    i8::cast_unsigned(v) as u64
}

// What 2 bytes hold for a value.
pub fn bits_of_i16(v: i16) -> u64
    ensures { (result ≡ twos_bits 2 v) × (result < 256 ^ 2) }
{
    i16::cast_unsigned(v) as u64
}

// What 4 bytes hold for a value.
pub fn bits_of_i32(v: i32) -> u64
    ensures { (result ≡ twos_bits 4 v) × (result < 256 ^ 4) }
{
    i32::cast_unsigned(v) as u64
}

// What 8 bytes hold for a value.
pub fn bits_of_i64(v: i64) -> u64
    ensures { (result ≡ twos_bits 8 v) × (result < 256 ^ 8) }
{
    i64::cast_unsigned(v)
}

// Writes a byte, and then the N lowest bytes of a number.
fn put<const N: usize>(out: &mut [u8], first: u8, v: u64) -> Result<usize, Refusal>
    requires { N ≤ 8 }
    ensures value { result ≡ written_answer (first ∷ to_le N v) out.old }
    ensures out_after { out.new ≡ written_content (first ∷ to_le N v) out.old }
{
    let count = 1 + N;
    if out.len() < count {
        return Err(Refusal::no_room(count));
    }
    out[0] = first;
    out[1..count].copy_from_slice(&v.to_le_bytes()[0..N]);
    Ok(count)
}

// Writes a byte, and then the lowest byte of a number.
pub fn put1(out: &mut [u8], first: u8, v: u64) -> Result<usize, Refusal>
    ensures value { result ≡ written_answer (first ∷ to_le 1 v) out.old }
    ensures out_after { out.new ≡ written_content (first ∷ to_le 1 v) out.old }
{
    put::<1>(out, first, v)
}

// Writes a byte, and then the 2 lowest bytes of a number.
pub fn put2(out: &mut [u8], first: u8, v: u64) -> Result<usize, Refusal>
    ensures value { result ≡ written_answer (first ∷ to_le 2 v) out.old }
    ensures out_after { out.new ≡ written_content (first ∷ to_le 2 v) out.old }
{
    put::<2>(out, first, v)
}

// Writes a byte, and then the 3 lowest bytes of a number.
pub fn put3(out: &mut [u8], first: u8, v: u64) -> Result<usize, Refusal>
    ensures value { result ≡ written_answer (first ∷ to_le 3 v) out.old }
    ensures out_after { out.new ≡ written_content (first ∷ to_le 3 v) out.old }
{
    put::<3>(out, first, v)
}

// Writes a byte, and then the 4 lowest bytes of a number.
pub fn put4(out: &mut [u8], first: u8, v: u64) -> Result<usize, Refusal>
    ensures value { result ≡ written_answer (first ∷ to_le 4 v) out.old }
    ensures out_after { out.new ≡ written_content (first ∷ to_le 4 v) out.old }
{
    put::<4>(out, first, v)
}

// Writes a byte, and then the 6 lowest bytes of a number.
pub fn put6(out: &mut [u8], first: u8, v: u64) -> Result<usize, Refusal>
    ensures value { result ≡ written_answer (first ∷ to_le 6 v) out.old }
    ensures out_after { out.new ≡ written_content (first ∷ to_le 6 v) out.old }
{
    put::<6>(out, first, v)
}

// Writes a byte, and then the 8 lowest bytes of a number.
pub fn put8(out: &mut [u8], first: u8, v: u64) -> Result<usize, Refusal>
    ensures value { result ≡ written_answer (first ∷ to_le 8 v) out.old }
    ensures out_after { out.new ≡ written_content (first ∷ to_le 8 v) out.old }
{
    put::<8>(out, first, v)
}

// Writes a byte, and then the 16 bytes of two words, low and high.
pub fn put16(out: &mut [u8], first: u8, low: u64, high: u64) -> Result<usize, Refusal>
    ensures value { result ≡ written_answer (first ∷ (to_le 8 low ++ to_le 8 high)) out.old }
    ensures out_after { out.new ≡ written_content (first ∷ (to_le 8 low ++ to_le 8 high)) out.old }
{
    if out.len() < 17 {
        return Err(Refusal::no_room(17));
    }
    let _ = put::<8>(out, first, low);
    out[9..17].copy_from_slice(&high.to_le_bytes());
    Ok(17)
}
