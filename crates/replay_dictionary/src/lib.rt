// The requests about a whole file and about the step over one atom, answered from the proved functions: the run, the
// tally, the step and the check for shortest form, 29, 2a, 2c and 2d of oracle/FORMAT.md. Test machinery: proved is
// that every request is taken and every answer ends.
#![tactic(auto)]

use replay_wire::{Cursor, Reply};
use types::{Budget, Checked, Place, Places, Ran, Run, Skipped, Tallied, TallyAnswer};

// Puts what a run tells, refused or not: the place, the budget left, the atoms read, where the refused atom starts, and
// the places of the last atom read.
fn put_ran(out: &mut [u8], reply: Reply, run: Run, start: Place) -> Reply {
    let placed = replay_wire::put_place(out, reply, run.place);
    let budgeted = replay_wire::put_word(out, placed, run.budget.0);
    let counted = replay_wire::put_word(out, budgeted, run.atoms);
    let started = replay_wire::put_place(out, counted, start);
    replay_wire::put_places(out, started, run.last)
}

fn put_run(out: &mut [u8], reply: Reply, ran: Ran) -> Reply {
    match ran {
        Ok(run) => {
            let taken = replay_wire::put_word(out, reply, 0);
            return put_ran(out, taken, run, run.place);
        }
        Err((run, refusal, start)) => {
            let numbered = replay_wire::put_word(out, reply, refusal.number());
            let told = put_ran(out, numbered, run, start);
            return replay_wire::put_data(out, told, refusal);
        }
    }
}

fn run(text: &[u8], cursor: Cursor, bytes: &mut [u8], out: &mut [u8]) -> Reply {
    let budget = replay_wire::read_word(text, cursor);
    let decoded = replay_wire::read_bytes(text, budget.cursor, bytes);
    let reply = replay_wire::begin(text, decoded.cursor);
    let count = decoded.count;
    let ran = dictionary::run(&bytes[0..count], Budget(budget.value));
    put_run(out, reply, ran)
}

// Puts a tally: atoms, body bytes, charge, letters.
fn put_tallied(out: &mut [u8], reply: Reply, tallied: Tallied) -> Reply {
    let body = tallied.body;
    let counted = replay_wire::put_word(out, reply, tallied.atoms);
    let bodied = replay_wire::put_word(out, counted, body.0);
    let charged = replay_wire::put_word(out, bodied, tallied.charge);
    replay_wire::put_word(out, charged, tallied.letters)
}

// Puts what a tally tells, refused or not: its number, and the places of the last atom read.
fn put_last(out: &mut [u8], reply: Reply, number: u64, last: Places) -> Reply {
    let numbered = replay_wire::put_word(out, reply, number);
    replay_wire::put_places(out, numbered, last)
}

fn put_tally(out: &mut [u8], reply: Reply, answer: TallyAnswer) -> Reply {
    match answer {
        TallyAnswer::Done(last, tallied) => {
            let told = put_last(out, reply, 0, last);
            return put_tallied(out, told, tallied);
        }
        TallyAnswer::Stopped(last, refusal, start) => {
            let told = put_last(out, reply, refusal.number(), last);
            let started = replay_wire::put_place(out, told, start);
            return replay_wire::put_data(out, started, refusal);
        }
        TallyAnswer::Refused(last, refusal) => {
            let told = put_last(out, reply, refusal.number(), last);
            return replay_wire::put_data(out, told, refusal);
        }
    }
}

fn tally(text: &[u8], cursor: Cursor, bytes: &mut [u8], out: &mut [u8]) -> Reply {
    let decoded = replay_wire::read_bytes(text, cursor, bytes);
    let reply = replay_wire::begin(text, decoded.cursor);
    let count = decoded.count;
    let answer = dictionary::tally(&bytes[0..count]);
    put_tally(out, reply, answer)
}

fn put_step(out: &mut [u8], reply: Reply, skipped: Skipped) -> Reply {
    match skipped {
        Ok((after, left, places, string)) => {
            let taken = replay_wire::taken_with(out, reply, after, left);
            let told = replay_wire::put_places(out, taken, places);
            return replay_wire::put_word(out, told, string as u64);
        }
        Err((after, left, refusal)) => {
            return replay_wire::refused_with(out, reply, after, left, refusal);
        }
    }
}

fn step(text: &[u8], cursor: Cursor, bytes: &mut [u8], out: &mut [u8]) -> Reply {
    let budget = replay_wire::read_word(text, cursor);
    let place = replay_wire::read_word(text, budget.cursor);
    let decoded = replay_wire::read_bytes(text, place.cursor, bytes);
    let reply = replay_wire::begin(text, decoded.cursor);
    let count = decoded.count;
    let given = Place(place.value as usize);
    let skipped = dictionary::skip_atom(&bytes[0..count], given, Budget(budget.value));
    put_step(out, reply, skipped)
}

fn put_check(out: &mut [u8], reply: Reply, checked: Checked) -> Reply {
    match checked {
        Ok(()) => {
            return replay_wire::put_word(out, reply, 0);
        }
        Err((refusal, start)) => {
            return replay_wire::refused_at(out, reply, start, refusal);
        }
    }
}

fn check(text: &[u8], cursor: Cursor, bytes: &mut [u8], out: &mut [u8]) -> Reply {
    let decoded = replay_wire::read_bytes(text, cursor, bytes);
    let reply = replay_wire::begin(text, decoded.cursor);
    let count = decoded.count;
    let checked = shortest::check(&bytes[0..count]);
    put_check(out, reply, checked)
}

// Answers a request of this crate's codes, whose code was read. `bytes` holds its source.
pub fn answer(code: u64, text: &[u8], cursor: Cursor, bytes: &mut [u8], out: &mut [u8]) -> Reply {
    match code {
        0x29 => run(text, cursor, bytes, out),
        0x2A => tally(text, cursor, bytes, out),
        0x2C => step(text, cursor, bytes, out),
        0x2D => check(text, cursor, bytes, out),
        _ => replay_wire::none(),
    }
}
