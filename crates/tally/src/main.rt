// The tally program: reads one file from standard input and writes its text. Document 01, "Tally". What the text is
// says the contract of `run`, over a reader and a writer whose bytes are known; what is left to `main` is to name
// standard input and output.
#![tactic(auto)]

ghost use Rattle.std.specs.Prelude.{◌≡◌, OnOk, IfSome, length};
ghost use Rattle.std.specs.Io.KnownBytes.{Appends};
ghost use Rattle.report.specs.Reports.{report_of};
ghost use Rattle.report_text.specs.Texts.{report_text};

use std::io::{self, Read, Write};

// Room for a byte more than a file may have, so that a longer one is seen to be too long.
fn file_buffer() -> [u8; 65537]
    ensures { 65537 ≡ length result }
{
    [0; 65537]
}

// Reads a file and writes its text.
fn run<R: Read, W: Write>(from: &mut R, to: &mut W) -> io::Result<()>
    ensures { OnOk result (IfSome (R.remaining from.old) (λ file.
        Appends (W.contents to.old) (W.contents to.new) (report_text (report_of file)))) }
{
    let mut file = file_buffer();
    let count = input::read_full(from, &mut file)?;
    let mut text = [0u8; 79];
    let length = report_text::report_into(&file[..count], &mut text);
    to.write_all(&text[..length])
}

fn main(rt: HostRuntime) -> io::Result<()> {
    run(&mut rt.stdin(), &mut rt.stdout())
}
