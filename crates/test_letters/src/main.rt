// Runs the count of letters on its edges, by itself and in a tally. What the program is held to was worked out apart
// from it: the edges by hand from document 02's K2, "the pair CC with 80 to BF, or CD with 80 to AF (U+0300 to U+036F),
// counts as no letter. Every other byte outside 80 to BF counts one, as before, also CC or CD before any other byte or at
// the string's end.", and the texts by counting their characters outside U+0300 to U+036F.
#![tactic(auto)]

ghost use Rattle.std.specs.Prelude.{◌≡◌, ◌<◌, length};

use std::io::{self, Read, Write};
use types::TallyAnswer;

// Writes a name and a number, in a line.
fn put(out: &mut impl Write, name: &str, number: u64) -> io::Result<()> {
    writeln!(out, "{name}: {number}")
}

// Writes how many letters a string has, by each of the two functions that count them.
fn run(out: &mut impl Write, name: &str, string: &[u8]) -> io::Result<()> {
    put(out, name, letters::count_letters(string))?;
    if letters::count_word(string) != letters::count_letters(string) {
        put(out, "but as a word", letters::count_word(string))?;
    }
    Ok(())
}

// Strings without a byte that a mark may begin with.
fn run_plain(out: &mut impl Write) -> io::Result<()> {
    run(out, "nothing", b"")?;
    run(out, "65", b"\x65")?;
    run(out, "7F 80 BF C0 FF", b"\x7F\x80\xBF\xC0\xFF")
}

// CC, before each edge of what makes it a mark.
fn run_cc(out: &mut impl Write) -> io::Result<()> {
    run(out, "65 CC 81", b"\x65\xCC\x81")?;
    run(out, "CC 7F", b"\xCC\x7F")?;
    run(out, "CC 80", b"\xCC\x80")?;
    run(out, "CC BF", b"\xCC\xBF")?;
    run(out, "CC C0", b"\xCC\xC0")
}

// CD, and its neighbours.
fn run_cd(out: &mut impl Write) -> io::Result<()> {
    run(out, "CD 7F", b"\xCD\x7F")?;
    run(out, "CD 80", b"\xCD\x80")?;
    run(out, "CD AF", b"\xCD\xAF")?;
    run(out, "CD B0", b"\xCD\xB0")?;
    run(out, "CD BF", b"\xCD\xBF")?;
    run(out, "CB 80", b"\xCB\x80")?;
    run(out, "CE 80", b"\xCE\x80")
}

// At the end of the string, and one after the other.
fn run_ends(out: &mut impl Write) -> io::Result<()> {
    run(out, "CC", b"\xCC")?;
    run(out, "CD", b"\xCD")?;
    run(out, "65 CC", b"\x65\xCC")?;
    run(out, "CC CC 80", b"\xCC\xCC\x80")?;
    run(out, "CC CD 80", b"\xCC\xCD\x80")?;
    run(out, "CD CC 80", b"\xCD\xCC\x80")?;
    run(out, "CC 80 80", b"\xCC\x80\x80")?;
    run(out, "CC 80 CC 80 CC", b"\xCC\x80\xCC\x80\xCC")
}

// 600 letters, but for a pair at a place.
fn with_pair(at: usize, first: u8, second: u8) -> [u8; 600]
    requires { at < 599 }
    ensures { 600 ≡ length result }
{
    let mut bytes = [0x65; 600];
    bytes[at] = first;
    bytes[at + 1] = second;
    bytes
}

// Writes a place or a length, and how many letters a string has.
fn put_at(out: &mut impl Write, at: usize, name: &str, string: &[u8]) -> io::Result<()> {
    write!(out, "{at}")?;
    run(out, name, string)
}

// The same of what ends with the byte at that place.
fn put_cut(out: &mut impl Write, at: usize, string: &[u8]) -> io::Result<()>
    requires { at < length string.now }
{
    let count = at + 1;
    put_at(out, at, ", ends with CC", &string[0..count])
}

// Of 600 bytes, the letters with a pair at a place that is no mark, with one that is, and of what ends with its first
// byte: where letters are counted in parts, a pair may lie across two.
fn run_at(out: &mut impl Write, at: usize) -> io::Result<()>
    requires { at < 599 }
{
    put_at(out, at, ", CD B0", &with_pair(at, 0xCD, 0xB0))?;
    let bytes = with_pair(at, 0xCC, 0xB0);
    put_at(out, at, ", CC B0", &bytes)?;
    put_cut(out, at, &bytes)
}

// At each place around another.
fn run_around(out: &mut impl Write, middle: usize) -> io::Result<()>
    requires { (2 < middle) × (middle < 596) }
{
    for at in middle - 3..middle + 3 {
        run_at(out, at)?;
    }
    Ok(())
}

// Writes how many letters a list of atoms has.
fn run_tally(out: &mut impl Write, name: &str, atoms: &[u8]) -> io::Result<()> {
    match dictionary::tally(atoms) {
        TallyAnswer::Done(_, tallied) => put(out, name, tallied.letters),
        _ => writeln!(out, "refused"),
    }
}

// A string that ends with a pair's first byte, and an atom after it whose first byte would be the second.
fn run_tallies(out: &mut impl Write) -> io::Result<()> {
    run_tally(out, "E1 CC, then 80", b"\xE1\xCC\x80")?;
    run_tally(out, "E1 CD, then AF", b"\xE1\xCD\xAF")?;
    run_tally(out, "E2 65 CC, then 80", b"\xE2\x65\xCC\x80")?;
    run_tally(out, "E2 CC 80", b"\xE2\xCC\x80")?;
    run_tally(
        out,
        "F1 01 of 16 letters and CC, then 80",
        b"\xF1\x01aaaaaaaaaaaaaaaa\xCC\x80",
    )?;
    run_tally(
        out,
        "F2 01 of 16 letters and CC 80",
        b"\xF2\x01aaaaaaaaaaaaaaaa\xCC\x80",
    )?;
    run_tally(out, "E1 CC, then E1 80", b"\xE1\xCC\xE1\x80")?;
    run_tally(
        out,
        "E2 CC 80, then E2 CD AF, then E2 CD B0",
        b"\xE2\xCC\x80\xE2\xCD\xAF\xE2\xCD\xB0",
    )
}

// Writes how many bytes and letters each line of a text has that ends with a line feed.
fn run_lines(out: &mut impl Write, text: &[u8]) -> io::Result<()> {
    for line in text.split_inclusive(|byte| *byte == b'\n') {
        if let Some(string) = line.strip_suffix(b"\n") {
            put_at(out, string.len(), " bytes", string)?;
        }
    }
    Ok(())
}

// Standard input has texts with their marks as parts of the letters, and the same after them: of as many letters where
// all marks are from U+0300 to U+036F, as those of Vietnamese and French are, and those of Japanese (U+3099) are not.
fn run_texts(out: &mut impl Write, input: &mut impl Read) -> io::Result<()> {
    let mut text = [0; 4096];
    let count = input::read_full(input, &mut text)?;
    run_lines(out, &text[..count])
}

fn main(rt: HostRuntime) -> io::Result<()> {
    let out = &mut rt.stdout();
    run_plain(out)?;
    run_cc(out)?;
    run_cd(out)?;
    run_ends(out)?;
    run_around(out, 192)?;
    run_around(out, 384)?;
    run_around(out, 576)?;
    run_tallies(out)?;
    run_texts(out, &mut rt.stdin())
}
