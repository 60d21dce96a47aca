// The requests that move bytes, answered from the proved functions: 23 to 25 of oracle/FORMAT.md. Test machinery:
// proved is that every request is taken and every answer ends.
#![tactic(auto)]

use replay_wire::{Cursor, Reply};
use types::{BytesAnswer, Place, RawAnswer, Way};

// Puts what a string read answered.
pub fn put_answer(out: &mut [u8], reply: Reply, answer: BytesAnswer, scratch: &[u8]) -> Reply {
    match answer {
        Ok((next, mark)) => {
            let placed = replay_wire::taken_at(out, reply, next);
            return replay_wire::put_string(out, placed, mark, scratch);
        }
        Err((next, refusal)) => {
            return replay_wire::refused_at(out, reply, next, refusal);
        }
    }
}

fn buffered_read_bytes(
    text: &[u8],
    cursor: Cursor,
    bytes: &mut [u8],
    scratch: &mut [u8],
    out: &mut [u8],
) -> Reply {
    let length = replay_wire::read_word(text, cursor);
    let asked = replay_wire::read_source(text, length.cursor, bytes);
    let reply = replay_wire::begin(text, asked.cursor);
    let count = asked.count;
    let place = asked.place;
    let way = asked.way;
    let source = &bytes[0..count];
    let answer = reader::buffered_read_bytes(source, place, length.value, scratch, way);
    put_answer(out, reply, answer, scratch)
}

// Puts what a raw read answered, with those bytes of the buffer that the request asks for.
fn put_raw(out: &mut [u8], reply: Reply, answer: RawAnswer, buffer: &[u8], whole: bool) -> Reply {
    match answer {
        Ok((next, count)) => {
            let placed = replay_wire::taken_at(out, reply, next);
            if whole {
                return replay_wire::put_bytes(out, placed, buffer);
            }
            return replay_wire::put_bytes(out, placed, replay_wire::first(buffer, count));
        }
        Err((next, refusal)) => {
            return replay_wire::refused_at(out, reply, next, refusal);
        }
    }
}

fn zero(buffer: &mut [u8]) {
    let mut i = 0;
    while i < buffer.len() {
        buffer[i] = 0;
        i += 1;
    }
}

// Asks for a raw read into the whole of a buffer: `Read::read`, or `Read::read_exact` into zeros.
fn read_into(
    source: &[u8],
    place: Place,
    way: Way,
    buffer: &mut [u8],
    exactly: bool,
    reply: Reply,
    out: &mut [u8],
) -> Reply {
    zero(buffer);
    if exactly {
        let answer = reader::read_exact(source, place, buffer, way);
        return put_raw(out, reply, answer, buffer, true);
    }
    let answer = reader::read(source, place, buffer);
    put_raw(out, reply, answer, buffer, false)
}

fn raw_read(
    text: &[u8],
    cursor: Cursor,
    exactly: bool,
    bytes: &mut [u8],
    scratch: &mut [u8],
    out: &mut [u8],
) -> Reply {
    let length = replay_wire::read_word(text, cursor);
    let asked = replay_wire::read_source(text, length.cursor, bytes);
    let reply = replay_wire::begin(text, asked.cursor);
    let count = asked.count;
    let place = asked.place;
    let way = asked.way;
    let wanted = length.value;
    if wanted <= scratch.len() as u64 {
        let room = wanted as usize;
        return read_into(
            &bytes[0..count],
            place,
            way,
            &mut scratch[0..room],
            exactly,
            reply,
            out,
        );
    }
    replay_wire::none()
}

// Answers a request of this crate's codes, whose code was read. `bytes` holds its source, `scratch` what is read.
pub fn answer(
    code: u64,
    text: &[u8],
    cursor: Cursor,
    bytes: &mut [u8],
    scratch: &mut [u8],
    out: &mut [u8],
) -> Reply {
    match code {
        0x23 => buffered_read_bytes(text, cursor, bytes, scratch, out),
        0x24 => raw_read(text, cursor, false, bytes, scratch, out),
        0x25 => raw_read(text, cursor, true, bytes, scratch, out),
        _ => replay_wire::none(),
    }
}
