// The requests about the reader that holds the slice still to be read, answered from the proved functions: 26 and 2b of
// oracle/FORMAT.md. Test machinery: proved is that every request is taken and every answer ends.
#![tactic(auto)]

use replay_wire::{Cursor, Reply};
use types::{AtomAnswer, Budget, Kind, Place};

// A read of a sequence: its code, the kind that it names, and the count or the length. A read that names none has
// zeros.
#[derive(Clone, Copy)]
pub struct Wanted {
    pub cursor: Cursor,
    pub code: u64,
    pub kind: Kind,
    pub count: u64,
}

// How much of an answer was put, and the budget that the next read is handed.
#[derive(Clone, Copy)]
pub struct Told {
    pub reply: Reply,
    pub budget: Budget,
}

// Puts what a reader of a slice says of it, at a place: its length, and whether there is nothing.
fn put_remaining(out: &mut [u8], reply: Reply, place: Place, held: &[u8]) -> Reply {
    let placed = replay_wire::taken_at(out, reply, place);
    let counted = replay_wire::put_word(out, placed, slice_reader::len_of(held) as u64);
    replay_wire::put_word(out, counted, slice_reader::is_empty_of(held) as u64)
}

fn remaining(text: &[u8], cursor: Cursor, bytes: &mut [u8], out: &mut [u8]) -> Reply {
    let asked = replay_wire::read_source(text, cursor, bytes);
    let reply = replay_wire::begin(text, asked.cursor);
    let count = asked.count;
    let place = asked.place;
    let source = &bytes[0..count];
    let held = slice_reader::left_from(source, place);
    put_remaining(out, reply, Place(place.within(count)), held)
}

// Reads the kind and the count of a number read.
fn wanted_number(text: &[u8], cursor: Cursor, code: u64) -> Wanted {
    let field = replay_wire::read_kind(text, cursor);
    let count = replay_wire::read_word(text, field.cursor);
    let kind = field.kind;
    let next = count.cursor;
    Wanted {
        cursor: next,
        code,
        kind,
        count: count.value,
    }
}

// A read that names nothing but its code, which is good or not.
fn wanted_plainly(cursor: Cursor, code: u64, good: bool) -> Wanted {
    Wanted {
        cursor: Cursor {
            at: cursor.at,
            good: cursor.good && good,
        },
        code,
        kind: Kind::Special,
        count: 0,
    }
}

// Reads one read of a sequence, its code first.
fn read_wanted(text: &[u8], cursor: Cursor) -> Wanted {
    let field = replay_wire::read_word(text, cursor);
    let next = field.cursor;
    let code = field.value;
    match code {
        0x20 | 0x26 => wanted_plainly(next, code, true),
        0x21 | 0x22 => wanted_number(text, next, code),
        0x23 => {
            let length = replay_wire::read_word(text, next);
            let past = length.cursor;
            Wanted {
                cursor: past,
                code,
                kind: Kind::Special,
                count: length.value,
            }
        }
        _ => wanted_plainly(next, code, false),
    }
}

fn budget_after(answer: AtomAnswer) -> Budget {
    match answer {
        Ok((_, left, _)) => left,
        Err((_, left, _)) => left,
    }
}

// Puts what a read that charges nothing answers on the slice that the reader holds.
fn put_read(out: &mut [u8], reply: Reply, held: &[u8], code: u64, kind: Kind, count: u64) -> Reply {
    match code {
        0x21 => {
            let answer = slice_reader::integer_at_start(held, kind, count);
            return replay_integers::put_answer(out, reply, answer);
        }
        0x22 => {
            let answer = slice_reader::float_at_start(held, kind, count);
            return replay_floats::put_answer(out, reply, answer, count);
        }
        0x23 => {
            let answer = slice_reader::string_at_start(held, count);
            return replay_strings::put_answer(out, reply, answer, held);
        }
        _ => {
            return put_remaining(out, reply, Place(0), held);
        }
    }
}

// Puts what an atom read answers on the slice that the reader holds, and hands its budget on.
fn tell_atom(out: &mut [u8], reply: Reply, held: &[u8], budget: Budget) -> Told {
    let answer = slice_reader::atom_at_start(held, budget);
    Told {
        reply: replay_atoms::put_answer(out, reply, answer, held),
        budget: budget_after(answer),
    }
}

// Puts what any read answers on the slice that the reader holds.
fn tell(
    out: &mut [u8],
    reply: Reply,
    held: &[u8],
    code: u64,
    kind: Kind,
    count: u64,
    budget: Budget,
) -> Told {
    if code == 0x20 {
        return tell_atom(out, reply, held, budget);
    }
    Told {
        reply: put_read(out, reply, held, code, kind, count),
        budget,
    }
}

// The slice that the reader has still to read after a read.
fn rest_after(held: &[u8], code: u64, kind: Kind, count: u64, budget: Budget) -> &[u8] {
    match code {
        0x20 => return slice_reader::rest_after_atom(held, budget),
        0x21 => return slice_reader::rest_after_integer(held, kind, count),
        0x22 => return slice_reader::rest_after_float(held, kind, count),
        0x23 => return slice_reader::rest_after_string(held, count),
        _ => return held,
    }
}

// Puts the answers of so many reads, each on what the one before it left, and behind each the length still to be read.
fn put_reads(
    text: &[u8],
    cursor: Cursor,
    source: &[u8],
    budget: Budget,
    count: u64,
    out: &mut [u8],
) -> Reply {
    let mut held = source;
    let mut next = cursor;
    let mut left = budget;
    let mut put = Reply { at: 0, good: true };
    let mut more = count;
    while 0 < more {
        let wanted = read_wanted(text, next);
        let kind = wanted.kind;
        let told = tell(out, put, held, wanted.code, kind, wanted.count, left);
        held = rest_after(held, wanted.code, kind, wanted.count, left);
        put = told.reply;
        put = replay_wire::put_word(out, put, slice_reader::len_of(held) as u64);
        left = told.budget;
        next = wanted.cursor;
        more -= 1;
    }
    let end = replay_wire::begin(text, next);
    Reply {
        at: put.at,
        good: put.good && end.good,
    }
}

// The longest sequence of reads.
const MOST_READS: u64 = 8;

fn sequence(text: &[u8], cursor: Cursor, bytes: &mut [u8], out: &mut [u8]) -> Reply {
    let budget = replay_wire::read_word(text, cursor);
    let decoded = replay_wire::read_bytes(text, budget.cursor, bytes);
    let reads = replay_wire::read_word(text, decoded.cursor);
    if MOST_READS < reads.value {
        return replay_wire::none();
    }
    let count = decoded.count;
    let next = reads.cursor;
    let source = &bytes[0..count];
    put_reads(text, next, source, Budget(budget.value), reads.value, out)
}

// Answers a request of this crate's codes, whose code was read. `bytes` holds its source.
pub fn answer(code: u64, text: &[u8], cursor: Cursor, bytes: &mut [u8], out: &mut [u8]) -> Reply {
    match code {
        0x26 => remaining(text, cursor, bytes, out),
        0x2B => sequence(text, cursor, bytes, out),
        _ => replay_wire::none(),
    }
}
