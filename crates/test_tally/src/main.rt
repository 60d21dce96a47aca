// Runs what the tally program writes on its cases: document 01's example, K2's marks, each refusal that it gives, the
// edges of its length, and numbers of several digits. The texts that it is held to were worked out by hand from document
// 01 and document 02's K2.
#![tactic(auto)]

ghost use Rattle.std.specs.Prelude.{◌≡◌, ◌≤◌, length};

use std::io::{self, Write};

// Writes a case's name and the text of its file.
fn run(out: &mut impl Write, name: &str, file: &[u8]) -> io::Result<()> {
    let mut text = [0u8; 79];
    let length = report_text::report_into(file, &mut text);
    writeln!(out, "{name}:")?;
    out.write_all(&text[..length])
}

// A buffer of one byte over and over, of a byte more than a file may have.
fn filled(byte: u8) -> [u8; 65537]
    ensures { 65537 ≡ length result }
{
    [byte; 65537]
}

// Runs a file of so many bytes: the signature, and then one byte over and over.
fn run_filled(out: &mut impl Write, name: &str, byte: u8, count: usize) -> io::Result<()>
    requires { count ≤ 65537 }
{
    let mut file = filled(byte);
    let _ = header::write_header(&mut file, 107);
    run(out, name, &file[0..count])
}

// Files that are taken.
fn run_taken(out: &mut impl Write) -> io::Result<()> {
    run(
        out,
        "example",
        b"Pot\x01\xE3n\xC3\xA9A\x2C\x01Bp\x11\x01a\x00\x3E\x00",
    )?;
    run(out, "signature alone", b"Pot\x00")?;
    run(
        out,
        "signature with other bits, highest version",
        b"\xFF\xFF\xFF\xFF",
    )?;
    run(
        out,
        "letters and bytes that are none",
        b"Pot\x02\xE6\x7F\x80\xBF\xC0\xFF\x00",
    )?;
    run(out, "a letter with its mark", b"Pot\x01\xE3e\xCC\x81")?;
    run(out, "CC at a string's end", b"Pot\x01\xE1\xCC\x80")
}

// Files that are refused: the signature, and then an atom.
fn run_refused(out: &mut impl Write) -> io::Result<()> {
    run(out, "empty", b"")?;
    run(out, "signature cut", b"Pot")?;
    run(out, "signature with a bit missing", b"Pop\x01\x01\x01")?;
    run(out, "special 7 after two atoms", b"Pot\x01\x01\x06\x07")?;
    run(out, "header cut", b"Pot\x01\x50")?;
    run(out, "number cut", b"Pot\x01\x41\x2C")?;
    run(out, "string cut", b"Pot\x01\xE2a")?;
    run(out, "count of 5, cut too", b"Pot\x01\x40\x00\x24")?;
    run(out, "float of 3 bytes", b"Pot\x01\x62\x00\x00\x00")
}

// The edges of the length, and numbers of several digits.
fn run_long(out: &mut impl Write) -> io::Result<()> {
    run_filled(out, "65536 bytes of units", 0x01, 65536)?;
    run_filled(out, "65537 bytes", 0x01, 65537)?;
    run(out, "65537 bytes with no signature", &filled(0x01))?;
    run_filled(out, "integers of 3 bytes", 0x22, 65536)?;
    run_filled(out, "last of them cut", 0x22, 65535)?;
    run_filled(out, "integers of 6 bytes", 0x25, 65531)?;
    run_filled(out, "strings of 1 byte, the longest text", 0xE1, 65536)?;
    run_filled(out, "eleven units", 0x01, 15)
}

fn main(rt: HostRuntime) -> io::Result<()> {
    let out = &mut rt.stdout();
    run_taken(out)?;
    run_refused(out)?;
    run_long(out)
}
