// The request that reads an integer, answered from the proved function: 21 of oracle/FORMAT.md. Test machinery: proved
// is that every request is taken and every answer ends.
#![tactic(auto)]

use replay_wire::{Cursor, Reply};
use types::IntegerAnswer;

// Puts what an integer read answered.
pub fn put_answer(out: &mut [u8], reply: Reply, answer: IntegerAnswer) -> Reply {
    match answer {
        Ok((next, value)) => {
            let placed = replay_wire::taken_at(out, reply, next);
            return replay_wire_numbers::put_integer(out, placed, value);
        }
        Err((next, refusal)) => {
            return replay_wire::refused_at(out, reply, next, refusal);
        }
    }
}

// Answers a request of this crate's code, which was read. `bytes` holds its source.
pub fn answer(code: u64, text: &[u8], cursor: Cursor, bytes: &mut [u8], out: &mut [u8]) -> Reply {
    if code != 0x21 {
        return replay_wire::none();
    }
    let kind = replay_wire::read_kind(text, cursor);
    let size = replay_wire::read_word(text, kind.cursor);
    let asked = replay_wire::read_source(text, size.cursor, bytes);
    let reply = replay_wire::begin(text, asked.cursor);
    let wanted = kind.kind;
    let count = asked.count;
    let place = asked.place;
    let way = asked.way;
    let answer = integer::read_from(wanted, size.value, &bytes[0..count], place, way);
    put_answer(out, reply, answer)
}
