// The test of reader.rs, `slice_reader_pub_methods`, over two bytes: one reader is held from the first byte to the end,
// as the original holds it, and what each read answers is taken out of what the read gave. A byte is read as an integer
// of one byte, as `read_exact` into one byte does.
#![tactic(auto)]

ghost use Rattle.std.specs.Prelude.{◌≡◌};
ghost use Rattle.test_slice_reader.specs.Held.{held_over};

use slice_reader::SliceReader;
use std::io;
use types::{Integer, IntegerAnswer, Kind};

// What a reader that is held over two reads says: how many bytes it has to read before them, what each read answers,
// how many bytes it has to read after them, and whether there are none.
#[derive(Clone, Copy)]
struct Held {
    before: usize,
    first: IntegerAnswer,
    second: IntegerAnswer,
    after: usize,
    empty: bool,
}

// Reads two integers of a kind and a count of bytes, one after the other, by one reader of the slice.
fn held_over(data: &[u8], kind: Kind, count: u64) -> Held
    ensures { result ≡ held_over «data».now kind count }
{
    let reader = SliceReader::from(data);
    let before = reader.len();
    let one = reader.read_integer(kind, count);
    let two = one.reader.read_integer(kind, count);
    let after = two.reader.len();
    let empty = two.reader.is_empty();
    Held {
        before,
        first: one.answer,
        second: two.answer,
        after,
        empty,
    }
}

// Writes a byte as a number, or that it is none, in a line.
fn write_byte(rt: &impl Print, integer: Integer) -> io::Result<()> {
    match integer {
        Integer::U8(byte) => println!(rt; "{byte}"),
        _ => println!(rt; "not a byte"),
    }
}

// Writes what a read answered, in a line.
fn write_answer(rt: &impl Print, answer: IntegerAnswer) -> io::Result<()> {
    match answer {
        Ok((_, integer)) => write_byte(rt, integer),
        Err((_, _)) => println!(rt; "refused"),
    }
}

fn main(rt: HostRuntime) -> io::Result<()> {
    let held = held_over(b"ab", Kind::UInt, 1);
    check::expect(held.before == 2);
    check::expect(held.after == 0);
    check::expect(held.empty);
    write_answer(&rt, held.first)?;
    write_answer(&rt, held.second)
}
