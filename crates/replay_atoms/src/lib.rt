// The requests about an atom and the budget, answered from the proved functions: 20, 27 and 28 of oracle/FORMAT.md.
// Test machinery: proved is that every request is taken and every answer ends.
#![tactic(auto)]

use replay_wire::{Asked, Cursor, Reply};
use types::{Atom, AtomAnswer, Budget, Nucleus};

// Puts the code of a nucleus, and what it holds. Of a float, the argument tells the bytes that are stored.
fn put_nucleus(out: &mut [u8], reply: Reply, nucleus: Nucleus, arg: u64, scratch: &[u8]) -> Reply {
    match nucleus {
        Nucleus::None => return replay_wire::put_word(out, reply, 0),
        Nucleus::Boolean(truth) => {
            let code = replay_wire::put_word(out, reply, 1);
            return replay_wire::put_word(out, code, truth as u64);
        }
        Nucleus::Integer(value) => {
            let code = replay_wire::put_word(out, reply, 2);
            return replay_wire_numbers::put_integer(out, code, value);
        }
        Nucleus::Float(value, bits) => {
            let code = replay_wire::put_word(out, reply, 3);
            return replay_wire_numbers::put_read_float(out, code, value, atom::count_of(arg), bits);
        }
        Nucleus::Bytes(mark) => {
            let code = replay_wire::put_word(out, reply, 4);
            return replay_wire::put_string(out, code, mark, scratch);
        }
        Nucleus::Unit => return replay_wire::put_word(out, reply, 5),
        Nucleus::Named => return replay_wire::put_word(out, reply, 6),
        Nucleus::DynamicMap => return replay_wire::put_word(out, reply, 7),
        Nucleus::DynamicEnd => return replay_wire::put_word(out, reply, 8),
    }
}

// Puts an atom: its kind, its argument, its places, what it holds.
fn put_atom(out: &mut [u8], reply: Reply, read: Atom, scratch: &[u8]) -> Reply {
    let kind = read.kind;
    let places = read.places;
    let nucleus = read.nucleus;
    let kinded = replay_wire::put_kind(out, reply, kind);
    let argued = replay_wire::put_word(out, kinded, read.arg);
    let put = replay_wire::put_places(out, argued, places);
    put_nucleus(out, put, nucleus, read.arg, scratch)
}

// Puts what an atom read answered.
pub fn put_answer(out: &mut [u8], reply: Reply, answer: AtomAnswer, scratch: &[u8]) -> Reply {
    match answer {
        Ok((place, left, read)) => {
            let put = replay_wire::taken_with(out, reply, place, left);
            return put_atom(out, put, read, scratch);
        }
        Err((place, left, refusal)) => {
            return replay_wire::refused_with(out, reply, place, left, refusal);
        }
    }
}

// Reads an atom as the request asks. Where it names no way, the entry that names none is asked, so that this entry
// itself is compared: it has no scratch, and would show if it filled or copied.
fn asked_atom(source: &[u8], asked: Asked, budget: Budget, scratch: &mut [u8]) -> AtomAnswer {
    let place = asked.place;
    let way = asked.way;
    if asked.named {
        return atom::read_atom_by(source, place, budget, scratch, way);
    }
    atom::read_atom(source, place, budget)
}

fn read_atom(
    text: &[u8],
    cursor: Cursor,
    bytes: &mut [u8],
    scratch: &mut [u8],
    out: &mut [u8],
) -> Reply {
    let budget = replay_wire::read_word(text, cursor);
    let asked = replay_wire::read_any_source(text, budget.cursor, bytes);
    let reply = replay_wire::begin(text, asked.cursor);
    let count = asked.count;
    let given = Budget(budget.value);
    let answer = asked_atom(&bytes[0..count], asked, given, scratch);
    put_answer(out, reply, answer, scratch)
}

fn update_budget(text: &[u8], cursor: Cursor, out: &mut [u8]) -> Reply {
    let budget = replay_wire::read_word(text, cursor);
    let amount = replay_wire::read_word(text, budget.cursor);
    let reply = replay_wire::begin(text, amount.cursor);
    match atom::update_budget(Budget(budget.value), amount.value) {
        Ok(left) => {
            let taken = replay_wire::put_word(out, reply, 0);
            return replay_wire::put_word(out, taken, left.0);
        }
        Err(refusal) => {
            return replay_wire::refused(out, reply, refusal);
        }
    }
}

fn in_memory_int_size(text: &[u8], cursor: Cursor, out: &mut [u8]) -> Reply {
    let count = replay_wire::read_word(text, cursor);
    let reply = replay_wire::begin(text, count.cursor);
    let taken = replay_wire::put_word(out, reply, 0);
    replay_wire::put_word(out, taken, atom::in_memory_int_size(count.value))
}

// Answers a request of this crate's codes, whose code was read. `bytes` holds its source, `scratch` a copied string.
pub fn answer(
    code: u64,
    text: &[u8],
    cursor: Cursor,
    bytes: &mut [u8],
    scratch: &mut [u8],
    out: &mut [u8],
) -> Reply {
    match code {
        0x20 => read_atom(text, cursor, bytes, scratch, out),
        0x27 => update_budget(text, cursor, out),
        0x28 => in_memory_int_size(text, cursor, out),
        _ => replay_wire::none(),
    }
}
