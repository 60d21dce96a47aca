// The text that the tally program prints of a file. Document 01, "Tally". The lines are put together in a buffer of
// their own, which holds the longest text, so that the room of the whole is judged before any of it is written.
#![tactic(auto)]

ghost use Rattle.std.specs.Prelude.{◌≡◌, ◌++◌, ◌≤◌, ◌+◌, length, take};
ghost use Rattle.lent.specs.Lent.{written_answer, written_content};
ghost use Rattle.report.specs.Reports.{report_of};
ghost use Rattle.report_text.specs.Texts.{line, tally_text, counted_text, refused_text, report_text};

use arrayvec::ArrayString;
use types::{Place, Refusal, Tallied};

// Room for the longest text, if each of its numbers had all the digits of 64 bits.
type Text = ArrayString<190>;

// Appends a line: a name with its `=`, a number of at most twenty digits and a newline. Not by `write!`, of which no
// clause says that it succeeds where there is room.
fn append_line(text: &mut Text, name: &str, number: u64)
    requires { length text.old.bytes + length name.now + 21 ≤ 190 }
    ensures room { length text.new.bytes ≤ length text.old.bytes + length name.now + 21 }
    ensures appended { text.new.bytes ≡ text.old.bytes ++ line name.now number }
{
    let mut digits = itoa::Buffer::new();
    text.push_str(name);
    text.push_str(digits.format(number));
    text.push_str("\n");
}

// Appends the tally's four lines.
#[tactic(auto, unfolding(crate::specs::Texts::tally_text))]
fn append_tally(text: &mut Text, tallied: Tallied)
    requires { length text.old.bytes + 110 ≤ 190 }
    ensures { text.new.bytes ≡ text.old.bytes ++ tally_text tallied }
{
    append_line(text, "atoms=", tallied.atoms);
    append_line(text, "body=", tallied.body.0);
    append_line(text, "charge=", tallied.charge);
    append_line(text, "letters=", tallied.letters);
}

// Puts together the seven lines of a file that was tallied.
#[tactic(auto, unfolding(crate::specs::Texts::counted_text))]
fn put_counted(version: u8, bytes: usize, tallied: Tallied) -> Text
    ensures { result.bytes ≡ counted_text version bytes tallied }
{
    let mut text = Text::new();
    append_line(&mut text, "ok=", 1);
    append_line(&mut text, "version=", version as u64);
    append_line(&mut text, "bytes=", bytes as u64);
    append_tally(&mut text, tallied);
    text
}

// Puts together the three lines of a refused file.
#[tactic(auto, unfolding(crate::specs::Texts::refused_text))]
fn put_refused(refusal: Refusal, start: Place) -> Text
    ensures { result.bytes ≡ refused_text refusal start.0 }
{
    let mut text = Text::new();
    append_line(&mut text, "ok=", 0);
    append_line(&mut text, "refusal=", refusal.number());
    append_line(&mut text, "at=", start.0 as u64);
    text
}

// Puts together the text of what is found of a file.
fn put_report(file: &[u8]) -> Text
    ensures { result.bytes ≡ report_text (report_of file.now) }
{
    match report::judge(file) {
        Ok((version, bytes, tallied)) => put_counted(version, bytes, tallied),
        Err((refusal, start)) => put_refused(refusal, start),
    }
}

// Writes what the tally program prints of a file.
pub fn write_report(file: &[u8], out: &mut [u8]) -> Result<usize, Refusal>
    ensures value { result ≡ written_answer (report_text (report_of file.now)) out.old }
    ensures out_after { out.new ≡ written_content (report_text (report_of file.now)) out.old }
{
    let text = put_report(file);
    lent::put_all(out, text.as_bytes())
}

// Writes the text into a buffer that has room for every file's, and answers its length.
#[tactic(auto, using(crate::proofs::Bound::text_room))]
pub fn report_into(file: &[u8], out: &mut [u8; 79]) -> usize
    ensures prefix_len { (result ≤ length out.new) × (result ≡ length (take result out.new)) }
    ensures value { result ≡ length (report_text (report_of file.now)) }
    ensures out_after { out.new ≡ written_content (report_text (report_of file.now)) out.old }
{
    write_report(file, out).unwrap()
}
