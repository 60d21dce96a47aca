// What the tally program finds of a file. Document 01, "Tally".
#![tactic(auto)]

ghost use Rattle.std.specs.Prelude.{◌≡◌, ◌≤◌, length};
ghost use Rattle.report.specs.Reports.{counted, report_of};
ghost use Rattle.report.specs.Reports.{after_signature};
ghost use Rattle.dictionary.specs.Runs.{tally_all};

use types::{Place, Refusal, Tallied, TallyAnswer, VersionAnswer, Way};

// What is found of a file: its version, how many bytes follow the signature and their tally; of a refused file the
// refusal, and where the refused atom starts in the file.
pub type Report = Result<(u8, usize, Tallied), (Refusal, Place)>;

// Tallies what follows the signature, whose four bytes the file has.
fn count(file: &[u8], version: u8) -> Report
    requires { 4 ≤ length file.now }
    ensures { result ≡ counted file.now version (tally_all (after_signature file.now)) }
{
    match dictionary::tally(&file[4..]) {
        TallyAnswer::Done(_, tallied) => {
            return Ok((version, file.len() - 4, tallied));
        }
        TallyAnswer::Stopped(_, refusal, start) => {
            return Err((refusal, Place(4 + start.0)));
        }
        TallyAnswer::Refused(_, refusal) => return Err((refusal, Place(0))),
    }
}

// Judges a file's length, then its signature, and tallies what follows it.
pub fn judge(file: &[u8]) -> Report
    ensures { result ≡ report_of file.now }
{
    if 65_536 < file.len() {
        return Err((Refusal::TooLong, Place(0)));
    }
    match header::read_header_by(file, Place(0), Way::ExactLent) {
        Ok((_, version)) => return count(file, version),
        Err((_, refusal)) => return Err((refusal, Place(0))),
    }
}
