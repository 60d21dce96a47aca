// The reads that move bytes: strings, lent or copied, the part that a delivery mark says, and the raw byte read of both
// readers. Document 01, "Two ways of reading", and reader.rs.
#![tactic(auto)]

ghost use Rattle.std.specs.Prelude.{◌≡◌};
ghost use Rattle.reader.specs.Parts.{part_of, pointer_of, marked_bytes, marked_pointer};
ghost use Rattle.reader.specs.Strings.{lent_string, copied_string, copied_scratch, string_answer, string_scratch};
ghost use Rattle.reader.specs.Raw.{raw_answer, raw_buffer, raw_exactly, raw_exactly_buffer};

use types::{BytesAnswer, Mark, Place, RawAnswer, Refusal, Way};

// The part of a slice at a start and of a length; past the end, the empty part at the slice's end.
pub fn part(slice: &[u8], start: usize, len: usize) -> &[u8]
    ensures result_value { result.now ≡ part_of slice.now start len }
    ensures ref_ptr_value { result.ref_ptr ≡ pointer_of slice.entry.ref_ptr slice.now start len }
{
    let end = slice.len();
    if start <= end && len <= end - start {
        &slice[start..start + len]
    } else {
        &slice[end..]
    }
}

// Resolves a delivery mark: a part of the source if lent, else of the scratch.
pub fn as_slice<'a>(source: &'a [u8], scratch: &'a [u8], mark: Mark) -> &'a [u8]
    ensures result_value { result.now ≡ marked_bytes mark source.now scratch.now }
    ensures ref_ptr_value { result.ref_ptr ≡
        marked_pointer mark source.entry.ref_ptr scratch.entry.ref_ptr source.now scratch.now }
{
    if mark.lent {
        part(source, mark.start, mark.len)
    } else {
        part(scratch, mark.start, mark.len)
    }
}

// Reads a string as a part of the source.
pub fn lend_bytes(source: &[u8], place: Place, length: u64) -> BytesAnswer
    ensures { result ≡ lent_string source.now place.0 length }
{
    let end = source.len();
    let at = place.within(end);
    if length <= (end - at) as u64 {
        let count = length as usize;
        return Ok((
            Place(at + count),
            Mark {
                start: at,
                len: count,
                lent: true,
            },
        ));
    }
    Err((Place(end), Refusal::Eof))
}

// Reads a string into the first bytes of scratch. The end of input is judged before the room.
pub fn copy_bytes(source: &[u8], place: Place, length: u64, scratch: &mut [u8]) -> BytesAnswer
    ensures value { result ≡ copied_string source.now place.0 length scratch.old }
    ensures scratch_after { scratch.new ≡
        copied_scratch source.now place.0 length scratch.old }
{
    let end = source.len();
    let at = place.within(end);
    let left = (end - at) as u64;
    if left < length {
        return Err((Place(end), Refusal::Eof));
    }
    let count = length as usize;
    if scratch.len() < count {
        return Err((Place(at), Refusal::no_room(count)));
    }
    let next = at + count;
    lent::copy_in(scratch, &source[at..next]);
    Ok((
        Place(next),
        Mark {
            start: 0,
            len: count,
            lent: false,
        },
    ))
}

// Reads exactly `length` bytes, lent or copied as the way says.
pub fn buffered_read_bytes(
    source: &[u8],
    place: Place,
    length: u64,
    scratch: &mut [u8],
    way: Way,
) -> BytesAnswer
    ensures value { result ≡ string_answer way source.now place.0 length scratch.old }
    ensures scratch_after { scratch.new ≡
        string_scratch way source.now place.0 length scratch.old }
{
    match way {
        Way::Filled | Way::ExactLent => lend_bytes(source, place, length),
        Way::ExactCopied => copy_bytes(source, place, length, scratch),
    }
}

// Reads as many bytes as the buffer holds, or as are left, into its first bytes.
pub fn read(source: &[u8], place: Place, buffer: &mut [u8]) -> RawAnswer
    ensures value { result ≡ raw_answer source.now place.0 buffer.old }
    ensures buffer_after { buffer.new ≡ raw_buffer source.now place.0 buffer.old }
{
    let end = source.len();
    let at = place.within(end);
    let count = buffer.len().min(end - at);
    let next = at + count;
    lent::copy_in(buffer, &source[at..next]);
    Ok((Place(next), count))
}

// Fills the whole buffer. Where fewer bytes are left, filled reading takes these, and exact reading refuses.
pub fn read_exact(source: &[u8], place: Place, buffer: &mut [u8], way: Way) -> RawAnswer
    ensures value { result ≡ raw_exactly way source.now place.0 buffer.old }
    ensures buffer_after { buffer.new ≡
        raw_exactly_buffer way source.now place.0 buffer.old }
{
    let end = source.len();
    let at = place.within(end);
    // One `read` after `way.is_exact() && left < buffer.len()` was tried: the proof where the ways join did not close.
    let left = end - at;
    if buffer.len() <= left {
        return read(source, place, buffer);
    }
    if way.is_exact() {
        Err((Place(end), Refusal::Eof))
    } else {
        read(source, place, buffer)
    }
}
