// The fields that name the types: ways, places, kinds, refusals.
ghost use Rattle.std.specs.Prelude.{◌≤◌, length};

use crate::fields::{Cursor, read_bytes, read_word};
use crate::put::{Reply, first, put_bytes, put_word};
use types::{Budget, Kind, Mark, Place, Places, Refusal, Way};

// A word below 256.
#[derive(Clone, Copy)]
pub struct Byte {
    pub cursor: Cursor,
    pub value: u8,
}

// A kind.
#[derive(Clone, Copy)]
pub struct KindField {
    pub cursor: Cursor,
    pub kind: Kind,
}

// A way, a place and a source, whose bytes are the first of a buffer. Where no way is named, `way` says nothing.
#[derive(Clone, Copy)]
pub struct Asked {
    pub cursor: Cursor,
    pub named: bool,
    pub way: Way,
    pub place: Place,
    pub count: usize,
}

// Reads a word below 256.
pub fn read_byte(text: &[u8], cursor: Cursor) -> Byte {
    let word = read_word(text, cursor);
    let next = word.cursor;
    Byte {
        cursor: Cursor {
            at: next.at,
            good: next.good && word.value < 256,
        },
        value: (word.value % 256) as u8,
    }
}

// Reads a kind by its code.
pub fn read_kind(text: &[u8], cursor: Cursor) -> KindField {
    let code = read_byte(text, cursor);
    let next = code.cursor;
    match Kind::from_u8(code.value) {
        Ok(kind) => {
            return KindField { cursor: next, kind };
        }
        Err(_) => {
            return KindField {
                cursor: Cursor {
                    at: next.at,
                    good: false,
                },
                kind: Kind::Special,
            };
        }
    }
}

// The way of a code below 3; 3 names none.
fn way_of(code: u64) -> Way {
    match code {
        0 => Way::Filled,
        1 => Way::ExactLent,
        _ => Way::ExactCopied,
    }
}

// Reads a way by one of the first so many codes, a place and a source.
fn read_coded(text: &[u8], cursor: Cursor, source: &mut [u8], codes: u64) -> Asked
    ensures { result.count ≤ length source.new }
{
    let way = read_word(text, cursor);
    let place = read_word(text, way.cursor);
    let decoded = read_bytes(text, place.cursor, source);
    let next = decoded.cursor;
    Asked {
        cursor: Cursor {
            at: next.at,
            good: next.good && way.value < codes,
        },
        named: way.value < 3,
        way: way_of(way.value),
        place: Place(place.value as usize),
        count: decoded.count,
    }
}

// Reads a way, a place and a source.
pub fn read_source(text: &[u8], cursor: Cursor, source: &mut [u8]) -> Asked
    ensures { result.count ≤ length source.new }
{
    read_coded(text, cursor, source, 3)
}

// The same for an entry that also stands without a way, which the request need not name then.
pub fn read_any_source(text: &[u8], cursor: Cursor, source: &mut [u8]) -> Asked
    ensures { result.count ≤ length source.new }
{
    read_coded(text, cursor, source, 4)
}

// Puts a kind by its code.
pub fn put_kind(out: &mut [u8], reply: Reply, kind: Kind) -> Reply {
    put_word(out, reply, kind.code() as u64)
}

// Puts a place.
pub fn put_place(out: &mut [u8], reply: Reply, place: Place) -> Reply {
    put_word(out, reply, place.0 as u64)
}

// Puts an atom's places.
pub fn put_places(out: &mut [u8], reply: Reply, places: Places) -> Reply {
    let first = places.first;
    let body = places.body;
    let after = places.after;
    let started = put_place(out, reply, first);
    let put = put_place(out, started, body);
    put_place(out, put, after)
}

// Puts the start of a reader's answer that was taken: 0, and the place.
pub fn taken_at(out: &mut [u8], reply: Reply, place: Place) -> Reply {
    let taken = put_word(out, reply, 0);
    put_place(out, taken, place)
}

// Puts the start of an atom's answer that was taken: 0, the place and the budget.
pub fn taken_with(out: &mut [u8], reply: Reply, place: Place, budget: Budget) -> Reply {
    let placed = taken_at(out, reply, place);
    put_word(out, placed, budget.0)
}

// Puts an answer that is a truth.
pub fn put_truth(out: &mut [u8], reply: Reply, truth: bool) -> Reply {
    let taken = put_word(out, reply, 0);
    put_word(out, taken, truth as u64)
}

// Puts a string as it was delivered: the bytes in the scratch, or its start and length in the source.
pub fn put_string(out: &mut [u8], reply: Reply, mark: Mark, scratch: &[u8]) -> Reply {
    if mark.lent {
        let lent = put_word(out, reply, 1);
        let put = put_word(out, lent, mark.start as u64);
        return put_word(out, put, mark.len as u64);
    }
    let copied = put_word(out, reply, 0);
    put_bytes(out, copied, first(scratch, mark.len))
}

// Puts the data of a refusal.
pub fn put_data(out: &mut [u8], reply: Reply, refusal: Refusal) -> Reply {
    match refusal {
        Refusal::InvalidKind(code) => {
            return put_word(out, reply, code as u64);
        }
        Refusal::UnknownSpecial(value) => {
            return put_word(out, reply, value);
        }
        Refusal::UnsupportedByteCount(kind, count) => {
            let put = put_kind(out, reply, kind);
            return put_word(out, put, count);
        }
        Refusal::UnexpectedKind(kind, wanted) => {
            let put = put_kind(out, reply, kind);
            return put_kind(out, put, wanted);
        }
        _ => {
            return reply;
        }
    }
}

// Puts a refusal: its number, then its data.
pub fn refused(out: &mut [u8], reply: Reply, refusal: Refusal) -> Reply {
    let put = put_word(out, reply, refusal.number());
    put_data(out, put, refusal)
}

// Puts a reader's refusal: its number, the place, then its data.
pub fn refused_at(out: &mut [u8], reply: Reply, place: Place, refusal: Refusal) -> Reply {
    let numbered = put_word(out, reply, refusal.number());
    let placed = put_place(out, numbered, place);
    put_data(out, placed, refusal)
}

// Puts the refusal of an atom: its number, the place, the budget, then its data.
pub fn refused_with(
    out: &mut [u8],
    reply: Reply,
    place: Place,
    budget: Budget,
    refusal: Refusal,
) -> Reply {
    let numbered = put_word(out, reply, refusal.number());
    let placed = put_place(out, numbered, place);
    let put = put_word(out, placed, budget.0);
    put_data(out, put, refusal)
}

// Puts what a writer answered, with the bytes that it wrote into a buffer.
pub fn put_written(
    out: &mut [u8],
    reply: Reply,
    written: Result<usize, Refusal>,
    bytes: &[u8],
) -> Reply {
    match written {
        Ok(count) => {
            let put = put_word(out, reply, 0);
            return put_bytes(out, put, first(bytes, count));
        }
        Err(refusal) => {
            return refused(out, reply, refusal);
        }
    }
}
