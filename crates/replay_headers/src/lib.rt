// The requests about codes, headers and signatures, answered from the proved functions: 1, 2 and 10 to 13 of
// oracle/FORMAT.md. Test machinery: proved is that every request is taken and every answer ends.
#![tactic(auto)]

use replay_wire::{Asked, Cursor, Reply};
use types::{HeaderAnswer, Kind, Special, VersionAnswer};

fn kind_from_u8(text: &[u8], cursor: Cursor, out: &mut [u8]) -> Reply {
    let code = replay_wire::read_byte(text, cursor);
    let reply = replay_wire::begin(text, code.cursor);
    match Kind::from_u8(code.value) {
        Ok(kind) => {
            let put = replay_wire::put_word(out, reply, 0);
            return replay_wire::put_kind(out, put, kind);
        }
        Err(refusal) => {
            return replay_wire::refused(out, reply, refusal);
        }
    }
}

fn special_try_from(text: &[u8], cursor: Cursor, out: &mut [u8]) -> Reply {
    let value = replay_wire::read_word(text, cursor);
    let reply = replay_wire::begin(text, value.cursor);
    match Special::try_from(value.value) {
        Ok(special) => {
            let put = replay_wire::put_word(out, reply, 0);
            return replay_wire::put_word(out, put, special.code());
        }
        Err(refusal) => {
            return replay_wire::refused(out, reply, refusal);
        }
    }
}

// Reads an atom header as the request asks. Where it names no way, the entry that names none is asked, so that this
// entry itself is compared.
fn asked_header(source: &[u8], asked: Asked) -> HeaderAnswer {
    let place = asked.place;
    let way = asked.way;
    if asked.named {
        return header::read_atom_header_by(source, place, way);
    }
    header::read_atom_header(source, place)
}

// Reads a signature likewise.
fn asked_version(source: &[u8], asked: Asked) -> VersionAnswer {
    let place = asked.place;
    let way = asked.way;
    if asked.named {
        return header::read_header_by(source, place, way);
    }
    header::read_header(source, place)
}

fn read_atom_header(text: &[u8], cursor: Cursor, source: &mut [u8], out: &mut [u8]) -> Reply {
    let asked = replay_wire::read_any_source(text, cursor, source);
    let reply = replay_wire::begin(text, asked.cursor);
    let count = asked.count;
    match asked_header(&source[0..count], asked) {
        Ok((place, kind, arg)) => {
            let placed = replay_wire::taken_at(out, reply, place);
            let put = replay_wire::put_kind(out, placed, kind);
            return replay_wire::put_word(out, put, arg);
        }
        Err((place, refusal)) => {
            return replay_wire::refused_at(out, reply, place, refusal);
        }
    }
}

fn read_header(text: &[u8], cursor: Cursor, source: &mut [u8], out: &mut [u8]) -> Reply {
    let asked = replay_wire::read_any_source(text, cursor, source);
    let reply = replay_wire::begin(text, asked.cursor);
    let count = asked.count;
    match asked_version(&source[0..count], asked) {
        Ok((place, version)) => {
            let placed = replay_wire::taken_at(out, reply, place);
            return replay_wire::put_word(out, placed, version as u64);
        }
        Err((place, refusal)) => {
            return replay_wire::refused_at(out, reply, place, refusal);
        }
    }
}

fn write_atom_header(text: &[u8], cursor: Cursor, bytes: &mut [u8], out: &mut [u8]) -> Reply {
    let kind = replay_wire::read_kind(text, cursor);
    let arg = replay_wire::read_word(text, kind.cursor);
    let reply = replay_wire::begin(text, arg.cursor);
    let wanted = kind.kind;
    let written = header::write_atom_header(bytes, wanted, arg.value);
    replay_wire::put_written(out, reply, written, bytes)
}

fn write_header(text: &[u8], cursor: Cursor, bytes: &mut [u8], out: &mut [u8]) -> Reply {
    let version = replay_wire::read_byte(text, cursor);
    let reply = replay_wire::begin(text, version.cursor);
    let written = header::write_header(bytes, version.value);
    replay_wire::put_written(out, reply, written, bytes)
}

// Answers a request of this crate's codes, whose code was read. `bytes` holds its source, or what a writer wrote.
pub fn answer(code: u64, text: &[u8], cursor: Cursor, bytes: &mut [u8], out: &mut [u8]) -> Reply {
    match code {
        0x1 => kind_from_u8(text, cursor, out),
        0x2 => special_try_from(text, cursor, out),
        0x10 => read_atom_header(text, cursor, bytes, out),
        0x11 => read_header(text, cursor, bytes, out),
        0x12 => write_atom_header(text, cursor, bytes, out),
        0x13 => write_header(text, cursor, bytes, out),
        _ => replay_wire::none(),
    }
}
