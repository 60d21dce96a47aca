// Test machinery: whole files read and many values written in one call, for the race against the original in `bench/`.
// Every value read is folded into a checksum that the original's side folds alike. It is proved to be safe and to end,
// not to be right: the race compares what the two sides answer.
#![tactic(auto)]

ghost use Rattle.std.specs.Prelude.{◌≤◌};

use types::{
    Atom, AtomAnswer, Budget, Checked, Float, Integer, Kind, Mark, Nucleus, Place, Places, Ran,
    Refusal, Special, TallyAnswer, Way, Wide,
};

// A word into the checksum.
fn fold(sum: u64, word: u64) -> u64 {
    (sum << 1) ^ (sum >> 63) ^ word
}

fn integer_word(integer: Integer) -> u64 {
    match integer {
        Integer::I8(value) => little::bits_of_i8(value),
        Integer::I16(value) => little::bits_of_i16(value),
        Integer::I32(value) => little::bits_of_i32(value),
        Integer::I64(value) => little::bits_of_i64(value),
        Integer::I128(value) => value.lo ^ value.hi,
        Integer::U8(value) => value as u64,
        Integer::U16(value) => value as u64,
        Integer::U32(value) => value as u64,
        Integer::U64(value) => value,
        Integer::U128(value) => value.lo ^ value.hi,
    }
}

fn float_word(float: Float) -> u64 {
    match float {
        Float::F64(value) => binary::f64_pattern(value),
        Float::F32(value) => binary::f32_pattern(value) as u64,
    }
}

// A string's length, and its first byte.
fn string_word(string: &[u8]) -> u64 {
    let length = string.len() as u64;
    match string.first() {
        Some(byte) => length ^ (u64::from(*byte) << 32),
        None => length,
    }
}

fn bytes_word(source: &[u8], scratch: &[u8], mark: Mark) -> u64 {
    // Two calls, so that a lent string is told by a branch and not by a choice of addresses.
    if mark.lent {
        return string_word(reader::part(source, mark.start, mark.len));
    }
    string_word(reader::part(scratch, mark.start, mark.len))
}

fn nucleus_word(source: &[u8], scratch: &[u8], nucleus: Nucleus) -> u64 {
    match nucleus {
        Nucleus::None => 1,
        Nucleus::Boolean(true) => 4,
        Nucleus::Boolean(false) => 3,
        Nucleus::Integer(integer) => integer_word(integer),
        Nucleus::Float(float, _) => float_word(float),
        Nucleus::Bytes(mark) => bytes_word(source, scratch, mark),
        Nucleus::Unit => 2,
        Nucleus::Named => 5,
        Nucleus::DynamicMap => 6,
        Nucleus::DynamicEnd => 7,
    }
}

// The three places of an atom, each at its own bits.
fn places_word(places: Places) -> u64 {
    let Places { first, body, after } = places;
    first.0 as u64 ^ ((body.0 as u64) << 20) ^ ((after.0 as u64) << 40)
}

fn atom_word(source: &[u8], scratch: &[u8], atom: Atom) -> u64 {
    nucleus_word(source, scratch, atom.nucleus)
        ^ u64::from(atom.kind.code())
        ^ atom.arg
        ^ places_word(atom.places)
}

// Puts words at a place of the answer, if it has room for all of them.
fn put_words(out: &mut [u64], at: usize, words: &[u64]) {
    if at <= out.len() && words.len() <= out.len() - at {
        let end = at + words.len();
        out[at..end].copy_from_slice(words);
    }
}

// The places of the last atom, behind the four words.
fn put_last(out: &mut [u64], last: Places) {
    let Places { first, body, after } = last;
    put_words(out, 4, &[first.0 as u64, body.0 as u64, after.0 as u64]);
}

fn way_of(code: u64) -> Way {
    match code {
        0 => Way::Filled,
        1 => Way::ExactLent,
        _ => Way::ExactCopied,
    }
}

// Reads every atom of a file under a way: 0 filled, 1 exact and lent, 2 exact and copied. Answers a refusal's number or
// 0, and the checksum, the number of atoms, the place and the budget. (No atom is empty: the test is there for the
// proof that the loop ends. It is no `for`, since each atom says where the next one starts.)
#[unsafe(no_mangle)]
pub extern "C" fn loop_read(
    source: &[u8],
    scratch: &mut [u8],
    budget: u64,
    way: u64,
    out: &mut [u64],
) -> u64 {
    let way = way_of(way);
    let mut sum: u64 = 0;
    let mut atoms: usize = 0;
    let mut at: usize = 0;
    let mut left = budget;
    while at < source.len() {
        match atom::read_atom_by(source, Place(at), Budget(left), scratch, way) {
            Ok((place, rest, atom)) => {
                let next = place.0;
                if next <= at {
                    return 99;
                }
                sum = fold(sum, atom_word(source, scratch, atom));
                atoms += 1;
                at = next;
                left = rest.0;
            }
            Err((place, rest, refusal)) => {
                put_words(out, 0, &[sum, atoms as u64, place.0 as u64, rest.0]);
                return refusal.number();
            }
        }
    }
    put_words(out, 0, &[sum, atoms as u64, at as u64, left]);
    0
}

// Runs over a file. Answers a refusal's number or 0, and the atoms, the place, the budget, where the refused atom
// starts, and the last atom's places.
#[unsafe(no_mangle)]
pub extern "C" fn loop_run(source: &[u8], budget: u64, out: &mut [u64]) -> u64 {
    match dictionary::run(source, Budget(budget)) {
        Ok(run) => {
            put_words(out, 0, &[run.atoms, run.place.0 as u64, run.budget.0, 0]);
            put_last(out, run.last);
            0
        }
        Err((run, refusal, start)) => {
            put_words(
                out,
                0,
                &[run.atoms, run.place.0 as u64, run.budget.0, start.0 as u64],
            );
            put_last(out, run.last);
            refusal.number()
        }
    }
}

// Tallies a file. Answers a refusal's number or 0, and what the file holds or where the refused atom starts, and the
// last atom's places.
#[unsafe(no_mangle)]
pub extern "C" fn loop_tally(source: &[u8], out: &mut [u64]) -> u64 {
    match dictionary::tally(source) {
        TallyAnswer::Done(last, tallied) => {
            put_words(
                out,
                0,
                &[
                    tallied.atoms,
                    tallied.body.0,
                    tallied.charge,
                    tallied.letters,
                ],
            );
            put_last(out, last);
            0
        }
        TallyAnswer::Stopped(last, refusal, start) => {
            put_words(out, 0, &[start.0 as u64, 0, 0, 0]);
            put_last(out, last);
            refusal.number()
        }
        TallyAnswer::Refused(last, refusal) => {
            put_words(out, 0, &[0, 0, 0, 0]);
            put_last(out, last);
            refusal.number()
        }
    }
}

// Checks that a file is in shortest form. Answers a refusal's number or 0, and where the refused atom starts.
#[unsafe(no_mangle)]
pub extern "C" fn loop_check(source: &[u8], out: &mut [u64]) -> u64 {
    match shortest::check(source) {
        Ok(()) => {
            put_words(out, 0, &[0, 0, 0, 0]);
            0
        }
        Err((refusal, start)) => {
            put_words(out, 0, &[start.0 as u64, 0, 0, 0]);
            refusal.number()
        }
    }
}

// The special of a code; None of a code that has none.
fn special_of(code: u64) -> Special {
    Special::try_from(code).unwrap_or(Special::None)
}

// The bytes that a writer wrote; more than any buffer has if it refused.
fn count_of(written: Result<usize, Refusal>) -> usize {
    written.unwrap_or(usize::MAX)
}

// Writes a value, of two words, by the writer of a number. Each arm takes the count out of its own answer, so that
// where a writer is inlined the count stays in a register.
fn write_one(out: &mut [u8], writer: u64, low: u64, high: u64) -> usize {
    match writer {
        0 => count_of(writers::write_i8(out, little::i8_of(low % 0x100))),
        1 => count_of(writers::write_i16(out, little::i16_of(low % 0x1_0000))),
        2 => count_of(writers::write_i24(out, little::i24_of(low % 0x100_0000))),
        3 => count_of(writers::write_i32(out, little::i32_of(low % 0x1_0000_0000))),
        4 => count_of(writers::write_i48(out, little::i48_of(low % 0x1_0000_0000_0000))),
        5 => count_of(writers::write_i64(out, little::i64_of(low))),
        6 => count_of(writers::write_i128(out, Wide { lo: low, hi: high })),
        7 => count_of(writers::write_u8(out, (low % 0x100) as u8)),
        8 => count_of(writers::write_u16(out, (low % 0x1_0000) as u16)),
        9 => count_of(writers::write_u24(out, (low % 0x100_0000) as u32)),
        10 => count_of(writers::write_u32(out, (low % 0x1_0000_0000) as u32)),
        11 => count_of(writers::write_u48(out, low % 0x1_0000_0000_0000)),
        12 => count_of(writers::write_u64(out, low)),
        13 => count_of(writers::write_u128(out, Wide { lo: low, hi: high })),
        14 => {
            let value = binary::f32_of_bits((low % 0x1_0000_0000) as u32);
            count_of(float::write_f32(out, value))
        }
        15 => count_of(float::write_f64(out, binary::f64_of_bits(low))),
        16 => count_of(writers::write_special(out, special_of(low))),
        17 => count_of(writers::write_bool(out, low == 1)),
        _ => count_of(header::write_atom_header(out, Kind::Sequence, low)),
    }
}

// Where the next value goes, after a write at a place of a buffer of that length; its end if the write was refused.
fn past(length: usize, at: usize, count: usize) -> usize
    requires { at ≤ length }
    ensures { result ≤ length }
{
    if count <= length - at {
        return at + count;
    }
    length
}

// Writes values, each of two words in turn, one after another, by a function that answers how many bytes one takes;
// answers how many bytes they take.
fn write_each<F: Fn(&mut [u8], u64, u64) -> usize>(
    values: &[u64],
    out: &mut [u8],
    write: F,
) -> usize
    requires { F.IsAlwaysCallable write }
{
    let mut at: usize = 0;
    for i in 0..values.len() / 2 {
        let count = write(&mut out[at..], values[2 * i], values[2 * i + 1]);
        at = past(out.len(), at, count);
    }
    at
}

// Writes values by the writer of a number; answers how many bytes they take.
#[unsafe(no_mangle)]
pub extern "C" fn loop_write(writer: u64, values: &[u64], out: &mut [u8]) -> usize {
    write_each(
        values,
        out,
        |room, low, high| write_one(room, writer, low, high),
    )
}

// The signature's writer in a loop of its own, of versions in the first word of two.
#[unsafe(no_mangle)]
pub extern "C" fn loop_write_header(values: &[u64], out: &mut [u8]) -> usize {
    write_each(values, out, |room, low, _| {
        count_of(header::write_header(room, (low % 0x100) as u8))
    })
}

// The string's writer in a loop of its own: each is the first bytes of the text, of a length in the first word of two.
#[unsafe(no_mangle)]
pub extern "C" fn loop_write_bytes(text: &[u8], values: &[u64], out: &mut [u8]) -> usize {
    write_each(values, out, |room, low, _| {
        count_of(writers::write_bytes(room, reader::part(text, 0, low as usize)))
    })
}
