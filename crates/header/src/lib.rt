// The atom header and the file's signature, read under each way and written into a lent buffer. Document 01, "Bytes of
// an atom"; format.rs, `write_atom_header` to `read_header`.
#![tactic(auto)]

ghost use Rattle.std.specs.Prelude.{◌≡◌, ◌∷◌, ◌≤◌, ◌<◌, ◌+◌, ◌*◌, ◌^◌, ltb, length};
ghost use Rattle.types.specs.declared.Kind.{Kind};
ghost use Rattle.types.specs.Kinds.{kind_from, kind_known};
ghost use Rattle.types.specs.Ways.{unnamed_way};
ghost use Rattle.lent.specs.Lent.{written_answer, written_content, copied_over};
ghost use Rattle.header.specs.Header.{header_read, header_bytes, later_bytes, later_from};
ghost use Rattle.header.specs.Signature.{version_read, judged, signature_bytes};

use types::{HeaderAnswer, Kind, Place, Refusal, VersionAnswer, Way};

// How many bytes the later part of an argument takes. The loop ends by the number that is left and by no count, so that
// a `for` is no plainer.
fn later_length(rest: u64) -> usize
    requires { rest < 128 ^ 9 }
    ensures { (result ≡ length (later_bytes 9 rest)) × (result ≤ 9) }
{
    let mut count: usize = 1;
    let mut arg = rest;
    while 128 <= arg {
        arg /= 128;
        count += 1;
    }
    count
}

// How many bytes an atom header takes, whatever its kind.
pub fn header_length(arg: u64) -> usize
    ensures { ((kind : Kind) → result ≡ length (header_bytes kind arg)) × (result ≤ 10) }
{
    if arg < 16 {
        1
    } else {
        later_length(arg / 16) + 1
    }
}

// Whether a buffer of that length has room for a header of two bytes or more. Ten bytes are room for any, so that the
// bytes of the later part are seldom counted.
fn has_room(room: usize, rest: u64) -> bool
    requires { rest < 128 ^ 9 }
    ensures { result ≡ ltb (length (later_bytes 9 rest)) room }
{
    10 <= room || later_length(rest) < room
}

// Writes the later part of an argument, 7 bits to a byte, lowest first, and answers how many bytes it took. A `for`
// over the buffer is no plainer: it would need an answer where the buffer ends first, which cannot be.
fn write_later(out: &mut [u8], rest: u64) -> usize
    requires { (rest < 128 ^ 9) × (length (later_bytes 9 rest) ≤ length out.old) }
    ensures value { (result ≡ length (later_bytes 9 rest)) × (result ≤ 9) }
    ensures out_after { out.new ≡ copied_over (later_bytes 9 rest) out.old }
{
    let mut i: usize = 0;
    let mut arg = rest;
    while 128 <= arg {
        out[i] = (arg % 128 + 128) as u8;
        arg /= 128;
        i += 1;
    }
    out[i] = arg as u8;
    i + 1
}

// Writes a header of two bytes or more that has its room, and answers how many bytes it took.
fn write_long(out: &mut [u8], first: u8, rest: u64) -> usize
    requires { (rest < 128 ^ 9) × (length (later_bytes 9 rest) < length out.old) }
    ensures value { result ≡ length (later_bytes 9 rest) + 1 }
    ensures out_after { out.new ≡ copied_over (first ∷ later_bytes 9 rest) out.old }
{
    out[0] = first;
    write_later(&mut out[1..], rest) + 1
}

// Writes an atom header: one byte where the argument is below 16, and up to ten.
pub fn write_atom_header(out: &mut [u8], kind: Kind, arg: u64) -> Result<usize, Refusal>
    ensures value { result ≡ written_answer (header_bytes kind arg) out.old }
    ensures out_after { out.new ≡ written_content (header_bytes kind arg) out.old }
{
    let first_byte = kind.code() * 32;
    if arg < 16 {
        return lent::put_one(out, first_byte + arg as u8);
    }
    let rest = arg / 16;
    if has_room(out.len(), rest) {
        let first = first_byte + 16 + (arg % 16) as u8;
        return Ok(write_long(out, first, rest));
    }
    Err(Refusal::no_room(later_length(rest) + 1))
}

// The kind of a code of three bits.
fn kind_of(code: u8) -> Kind
    ensures { result ≡ kind_known (kind_from code) }
{
    Kind::from_u8(code).unwrap_or(Kind::Bytes)
}

// Where the later bytes end at the latest: nine on, or at the source's end.
fn later_end(length: usize, at: usize) -> usize
    requires { at ≤ length }
    ensures { (at ≤ result) × (result ≤ length) × (result ≤ at + 9) × (result < at + 9 → result ≡ length) }
{
    at + (length - at).min(9)
}

// Reads the later bytes of a header, whose kind and low 4 bits are known.
fn read_later(source: &[u8], at: usize, kind: Kind, low: u64, way: Way) -> HeaderAnswer
    requires { (at ≤ length source.now) × (low < 16) }
    ensures { result ≡ later_from way source.now at kind low }
{
    let end = later_end(source.len(), at);
    let mut arg = low;
    let mut offset: u32 = 4;
    for place in at..end {
        let byte = source[place];
        let data = byte % 128;
        arg |= little::byte64(data) << offset;
        offset += 7;
        if data == byte {
            return Ok((Place(place + 1), kind, arg));
        }
    }
    if end - at == 9 {
        return Ok((Place(end), kind, arg));
    }
    if way.is_exact() {
        return Err((Place(end), Refusal::Eof));
    }
    Ok((Place(end), kind, arg))
}

// Reads an atom header (kind and argument) at a place, under a way.
pub fn read_atom_header_by(source: &[u8], place: Place, way: Way) -> HeaderAnswer
    ensures { result ≡ header_read way source.now place.0 }
{
    let at = place.within(source.len());
    if at < source.len() {
        let first_byte = source[at];
        let kind = kind_of(first_byte / 32);
        let low = little::byte64(first_byte % 16);
        if first_byte / 16 % 2 == 0 {
            return Ok((Place(at + 1), kind, low));
        }
        return read_later(source, at + 1, kind, low, way);
    }
    if way.is_exact() {
        return Err((Place(at), Refusal::Eof));
    }
    Ok((Place(at), Kind::Special, 0))
}

// Reads an atom header at a place, by the way of the entry that names none.
pub fn read_atom_header(source: &[u8], place: Place) -> HeaderAnswer
    ensures { result ≡ header_read unnamed_way source.now place.0 }
{
    read_atom_header_by(source, place, Way::unnamed())
}

// Writes the signature. The first three bytes are 'Pot' (0x506F74), and the fourth is the version. `copy_from_slice` was
// tried: it is slower than four stores, by a block on the stack and a test whether it lies over the buffer.
pub fn write_header(out: &mut [u8], version: u8) -> Result<usize, Refusal>
    ensures value { result ≡ written_answer (signature_bytes version) out.old }
    ensures out_after { out.new ≡ written_content (signature_bytes version) out.old }
{
    if out.len() < 4 {
        return Err(Refusal::no_room(4));
    }
    out[0] = 0x50;
    out[1] = 0x6F;
    out[2] = 0x74;
    out[3] = version;
    Ok(4)
}

// Takes a signature's word if it has every bit of 'Pot'.
fn judge(header: u64, place: Place) -> VersionAnswer
    ensures { result ≡ judged header place }
{
    if header & 0x506F_7400 == 0x506F_7400 {
        return Ok((place, (header % 256) as u8));
    }
    Err((place, Refusal::IncompatibleVersion))
}

// Reads the signature at a place, under a way, and answers the version. `u32::from_be_bytes` is no plainer: each byte,
// zero past the end, would be cast for it.
pub fn read_header_by(source: &[u8], place: Place, way: Way) -> VersionAnswer
    ensures { result ≡ version_read way source.now place.0 }
{
    let at = place.within(source.len());
    let header = little::byte_at(source, at, 0) * 0x100_0000
        + little::byte_at(source, at, 1) * 0x1_0000
        + little::byte_at(source, at, 2) * 0x100
        + little::byte_at(source, at, 3);
    if 4 <= source.len() - at {
        return judge(header, Place(at + 4));
    }
    if way.is_exact() {
        return Err((Place(source.len()), Refusal::Eof));
    }
    judge(header, Place(source.len()))
}

// Reads the signature at a place, by the way of the entry that names none.
pub fn read_header(source: &[u8], place: Place) -> VersionAnswer
    ensures { result ≡ version_read unnamed_way source.now place.0 }
{
    read_header_by(source, place, Way::unnamed())
}
