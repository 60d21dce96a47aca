// Runs refusal 9. A line of standard input is a number of bytes and a request of oracle/FORMAT.md: the request is
// answered with a buffer of just so many bytes, which a writer writes into and a reader copies a string into. Each byte
// of the buffer is a5 before, so that behind the answer the whole buffer shows which bytes were touched. The answers
// that the program is held to were worked out from document 01's text apart from it, not taken from what it writes.
#![tactic(auto)]

ghost use Rattle.std.specs.Prelude.{◌≡◌, length};

use replay_wire::{Cursor, Reply};
use std::io::{self, Write};

fn mark_untouched(buffer: &mut [u8]) {
    let mut i = 0;
    while i < buffer.len() {
        buffer[i] = 0xA5;
        i += 1;
    }
}

// Writes the line, its answer, and what the buffer holds.
fn write_answer(
    to: &mut impl Write,
    line: &[u8],
    reply: Reply,
    out: &mut [u8],
    buffer: &[u8],
) -> io::Result<()> {
    to.write_all(line)?;
    to.write_all(b" = ")?;
    if reply.good {
        to.write_all(replay_wire::first(out, reply.at))?;
    }
    to.write_all(b" / ")?;
    let put = replay_wire::put_bytes(out, Reply { at: 0, good: true }, buffer);
    to.write_all(replay_wire::first(out, put.at))?;
    to.write_all(b"\n")
}

// Asks a writer to write into the buffer.
fn write_into(
    to: &mut impl Write,
    buffer: &mut [u8],
    line: &[u8],
    request: &[u8],
    scratch: &mut [u8],
    out: &mut [u8],
) -> io::Result<()> {
    mark_untouched(buffer);
    let reply = replay_answers::answer(request, buffer, scratch, out);
    write_answer(to, line, reply, out, buffer)
}

// Asks a reader to copy a string into the buffer.
fn copy_into(
    to: &mut impl Write,
    buffer: &mut [u8],
    line: &[u8],
    request: &[u8],
    bytes: &mut [u8],
    out: &mut [u8],
) -> io::Result<()> {
    mark_untouched(buffer);
    let reply = replay_answers::answer(request, bytes, buffer, out);
    write_answer(to, line, reply, out, buffer)
}

// Whether a code asks a reader.
fn is_reader(code: u64) -> bool {
    match code {
        0x20..=0x2D => true,
        _ => false,
    }
}

// Answers a request with a buffer of that many bytes.
fn ask_with(
    to: &mut impl Write,
    room: usize,
    line: &[u8],
    request: &[u8],
    buffer: &mut [u8],
    other: &mut [u8],
    out: &mut [u8],
) -> io::Result<()> {
    let code = replay_wire::read_word(request, Cursor { at: 0, good: true });
    if buffer.len() < room {
        return Ok(());
    }
    if is_reader(code.value) {
        return copy_into(to, &mut buffer[0..room], line, request, other, out);
    }
    write_into(to, &mut buffer[0..room], line, request, other, out)
}

fn ask_line(
    to: &mut impl Write,
    line: &[u8],
    buffer: &mut [u8],
    other: &mut [u8],
    out: &mut [u8],
) -> io::Result<()> {
    let room = replay_wire::read_word(line, Cursor { at: 0, good: true });
    let next = room.cursor;
    let at = next.at;
    if line.len() < at {
        return Ok(());
    }
    ask_with(
        to,
        room.value as usize,
        line,
        &line[at..],
        buffer,
        other,
        out,
    )
}

fn ask(
    to: &mut impl Write,
    text: &[u8],
    buffer: &mut [u8],
    other: &mut [u8],
    out: &mut [u8],
) -> io::Result<()> {
    let mut at = 0;
    while at < text.len() {
        ask_line(to, replay_wire::line_at(text, at), buffer, other, out)?;
        at = replay_wire::next_line(text, at);
    }
    Ok(())
}

// Room for the requests. The `ensures` says no more than the length, so that no proof spells the zeros out.
fn text_buffer() -> [u8; 65536]
    ensures { 65536 ≡ length result }
{
    [0; 65536]
}

fn main(rt: HostRuntime) -> io::Result<()> {
    let mut text = text_buffer();
    let count = input::read_full(&mut rt.stdin(), &mut text)?;
    let mut buffer = [0u8; 64];
    let mut other = [0u8; 64];
    let mut out = [0u8; 512];
    ask(
        &mut rt.stdout(),
        &text[..count],
        &mut buffer,
        &mut other,
        &mut out,
    )
}
