// A request of oracle/FORMAT.md, answered from the proved functions as the oracle answers it: each code goes to the
// crate that has its entry. A code that none has is not answered.
#![tactic(auto)]

use replay_wire::{Cursor, Reply};

// Answers a request of a reader or of a whole file, whose code was read.
fn answer_reader(
    code: u64,
    request: &[u8],
    cursor: Cursor,
    bytes: &mut [u8],
    scratch: &mut [u8],
    out: &mut [u8],
) -> Reply {
    match code {
        0x20 | 0x27 | 0x28 => replay_atoms::answer(code, request, cursor, bytes, scratch, out),
        0x21 => replay_integers::answer(code, request, cursor, bytes, out),
        0x22 => replay_floats::answer(code, request, cursor, bytes, out),
        0x23..=0x25 => replay_strings::answer(code, request, cursor, bytes, scratch, out),
        0x26 | 0x2B => replay_slices::answer(code, request, cursor, bytes, out),
        0x29 | 0x2A | 0x2C | 0x2D => replay_dictionary::answer(code, request, cursor, bytes, out),
        _ => replay_wire::none(),
    }
}

// Answers a request into the first bytes of `out`. `bytes` holds its source or what a writer wrote, `scratch` what is
// copied out of it. An answer is good only if the request was read to its end and everything had room.
pub fn answer(request: &[u8], bytes: &mut [u8], scratch: &mut [u8], out: &mut [u8]) -> Reply {
    let word = replay_wire::read_word(request, Cursor { at: 0, good: true });
    let cursor = word.cursor;
    let code = word.value;
    match code {
        0x1 | 0x2 | 0x10..=0x13 => replay_headers::answer(code, request, cursor, bytes, out),
        0x20..=0x2D => answer_reader(code, request, cursor, bytes, scratch, out),
        0x50..=0x55 | 0x76 | 0x77 => replay_floats::answer(code, request, cursor, bytes, out),
        0x30..=0x3D | 0x3F | 0x40..=0x49 => replay_casts::answer(code, request, cursor, out),
        0x3E | 0x60..=0x6D | 0x70..=0x75 => {
            replay_writers::answer(code, request, cursor, bytes, scratch, out)
        }
        _ => replay_wire::none(),
    }
}
