// A dictionary file: the step that builds no value, the run over a file's atoms, and the tally. Document 01, "Two ways
// of reading" and "Tally"; document 02, K1 and K2.
#![tactic(auto)]

ghost use Rattle.std.specs.Prelude.{◌≡◌, true, false, suc, ◌≤◌, ◌<◌, ◌+◌, ◌-◌, length, take, drop};
ghost use Rattle.types.specs.Choice.{pick};
ghost use Rattle.types.specs.Counters.{places_of, no_places};
ghost use Rattle.types.specs.Forms.{number_charge, unsupported};
ghost use Rattle.types.specs.declared.Refusal.TheVariants as R;
ghost use Rattle.types.specs.declared.TallyAnswer.TheVariants as TA;
ghost use Rattle.types.specs.declared.Way.TheVariants.{ExactLent};
ghost use Rattle.letters.specs.Letters.{letters};
ghost use Rattle.header.specs.Header.{header_read};
ghost use Rattle.atom.specs.Atoms.{with_budget};
ghost use Rattle.dictionary.specs.Steps.{skipped, stepped, body_step, step_after, past_alone, short_step, last_of};
ghost use Rattle.dictionary.specs.Runs.{run_all, tallied, tally_from, nothing, tally_all};

use types::{
    BodyBytes, Budget, HeaderAnswer, Kind, Place, Places, Ran, Refusal, Run, Skipped, Special,
    Tallied, TallyAnswer, Way,
};

// What the run and the tally are told of an atom: what the step that builds no value answers, with the start of its
// body alone of its places, since they hold the other two.
type Step = Result<(Place, Budget, Place, bool), (Place, Budget, Refusal)>;

// What they know of an atom by its first byte alone: what `step_atom` tells of one that it goes past, or nothing.
type Short = Option<(Place, Budget, Place, bool)>;

// A number's body, of that many bytes and of an allowed count or not: the charge first, then the count, then the end.
fn skip_number(
    source: &[u8],
    kind: Kind,
    count: u64,
    allowed: bool,
    at: Place,
    left: Budget,
) -> Step
    requires { at.0 ≤ length source.now }
    ensures { result ≡
        body_step (length source.now) at.0 left.0 false count (number_charge count) allowed
        (unsupported kind count) }
{
    let Ok(rest) = atom::update_budget(left, atom::in_memory_int_size(count)) else {
        return Err((at, left, Refusal::TooManyBytesRead));
    };
    if allowed {
        let room = source.len() - at.0;
        if (room as u64) < count {
            return Err((Place(source.len()), rest, Refusal::Eof));
        }
        return Ok((Place(at.0 + count as usize), rest, at, false));
    }
    Err((at, rest, Refusal::unsupported(kind, count)))
}

// A string's body. One function for this and a number's would take the charge, the judgement of the count and the
// refusal as parameters, and be no plainer.
fn skip_bytes(source: &[u8], count: u64, at: Place, left: Budget) -> Step
    requires { at.0 ≤ length source.now }
    ensures { result ≡ body_step (length source.now) at.0 left.0 true count count true R.Eof }
{
    let Ok(rest) = atom::update_budget(left, count) else {
        return Err((at, left, Refusal::TooManyBytesRead));
    };
    let room = source.len() - at.0;
    if (room as u64) < count {
        return Err((Place(source.len()), rest, Refusal::Eof));
    }
    Ok((Place(at.0 + count as usize), rest, at, true))
}

// What follows a header, by its kind.
fn skip_body(source: &[u8], kind: Kind, arg: u64, at: Place, left: Budget) -> Step
    requires { at.0 ≤ length source.now }
    ensures { result ≡ step_after (length source.now) kind arg at.0 left.0 }
{
    match kind {
        Kind::Sequence | Kind::Map | Kind::Symbol => return Ok((at, left, at, false)),
        Kind::Special => match Special::try_from(arg) {
            Ok(_) => return Ok((at, left, at, false)),
            Err(refusal) => return Err((at, left, refusal)),
        },
        Kind::Int | Kind::UInt => {
            let count = atom::count_of(arg);
            return skip_number(source, kind, count, integer::allowed(count), at, left);
        }
        Kind::Float => {
            let count = atom::count_of(arg);
            return skip_number(source, kind, count, float::allowed(count), at, left);
        }
        Kind::Bytes => return skip_bytes(source, arg, at, left),
    }
}

// A header, whose refusal leaves the budget.
fn read_header(
    source: &[u8],
    place: Place,
    budget: Budget,
) -> Result<(Place, Kind, u64), (Place, Budget, Refusal)>
    ensures { result ≡ with_budget budget (header_read ExactLent source.now place.0) }
{
    let read = header::read_atom_header_by(source, place, Way::ExactLent);
    read.map_err(|(end, refusal)| (end, budget, refusal))
}

// Reads an atom exactly, of which the run and the tally go on with what this tells.
fn step_atom(source: &[u8], place: Place, budget: Budget) -> Step
    ensures { result ≡ stepped source.now place.0 budget }
{
    let (next, kind, arg) = read_header(source, place, budget)?;
    skip_body(source, kind, arg, next, budget)
}

// Where an atom stands: its first place, the place where its body starts and the place after it.
fn places_of(first: Place, body: Place, after: Place) -> Places
    ensures { result ≡ places_of first body after }
{
    Places { first, body, after }
}

// Reads an atom exactly and builds no value: `read_atom`, strings lent, with the value forgotten.
pub fn skip_atom(source: &[u8], place: Place, budget: Budget) -> Skipped
    ensures { result ≡ skipped source.now place.0 budget }
{
    let (after, rest, body, string) = step_atom(source, place, budget)?;
    let first = Place(place.within(source.len()));
    Ok((after, rest, places_of(first, body, after), string))
}

// A known body of that length and charge, after a header of one byte.
fn short_body(
    size: usize,
    at: Place,
    left: Budget,
    body: BodyBytes,
    charge: u64,
    string: bool,
) -> Short
    requires { at.0 < size }
    ensures { result ≡ past_alone (body_step size (at.0 + 1) left.0 string body.0 charge true R.Eof) }
{
    let from = at.0 + 1;
    if ((size - from) as u64) < body.0 {
        return None;
    }
    let Ok(rest) = atom::update_budget(left, charge) else {
        return None;
    };
    Some((Place(from + body.0 as usize), rest, Place(from), string))
}

// An atom that the run and the tally pass without asking `step_atom`: a UInt of one byte, a string or a sequence whose
// header is one byte, as nearly all of a dictionary's are. Each has the body and the charge of its kind.
fn short_atom(source: &[u8], at: Place, left: Budget) -> Short
    requires { at.0 < length source.now }
    ensures { result ≡ short_step source.now at.0 left }
{
    let here = at.0;
    let first = source[here];
    let size = source.len();
    if first == 0x40 {
        return short_body(
            size,
            at,
            left,
            BodyBytes(1),
            atom::in_memory_int_size(1),
            false,
        );
    }
    if first / 16 == 14 {
        let length = (first % 16) as u64;
        return short_body(size, at, left, BodyBytes(length), length, true);
    }
    if first / 16 == 8 {
        return short_body(size, at, left, BodyBytes(0), 0, false);
    }
    return None;
}

// Where the last atom stands, of which a loop holds where it starts, and that it ends where the loop is: its header,
// read again, tells the rest. Where there is none the loop is where it began.
fn last_places(source: &[u8], first: Place, at: Place) -> Places
    ensures { result ≡ last_of source.now first at }
{
    if first.0 == at.0 {
        return places_of(first, first, first);
    }
    match header::read_atom_header_by(source, first, Way::ExactLent) {
        Ok((body, _, _)) => return places_of(first, body, at),
        Err((end, _)) => return places_of(first, end, at),
    }
}

// Reads a file's atoms until its end or a refusal. Each tells where the next one starts, so that there is no list to go
// over with `for`.
pub fn run(source: &[u8], budget: Budget) -> Ran
    ensures { result ≡ run_all source.now budget }
{
    let mut atoms: u64 = 0;
    let mut first = Place(0);
    let mut at = Place(0);
    let mut left = budget;
    while at.0 < source.len() {
        if let Some((end, rest, _, _)) = short_atom(source, at, left) {
            atoms += 1;
            first = at;
            at = end;
            left = rest;
            continue;
        }
        match step_atom(source, at, left) {
            Ok((next, rest, _, _)) => {
                atoms += 1;
                first = at;
                at = next;
                left = rest;
            }
            Err((place, budget, refusal)) => {
                let last = last_places(source, first, at);
                let run = Run {
                    place,
                    budget,
                    atoms,
                    last,
                };
                return Err((run, refusal, at));
            }
        }
    }
    Ok(Run {
        place: at,
        budget: left,
        atoms,
        last: last_places(source, first, at),
    })
}

// The letters of an atom's body, none if it is no string.
fn letters_of(source: &[u8], from: Place, to: Place, string: bool) -> u64
    requires { (from.0 ≤ to.0) × (to.0 ≤ length source.now) }
    ensures { (result ≡ pick string (letters (take (to.0 - from.0) (drop from.0 source.now))) 0) ×
        (result + from.0 ≤ to.0) }
{
    if string {
        let start = from.0;
        let end = to.0;
        return letters::count_letters(&source[start..end]);
    }
    0
}

// The same of an atom that is passed by its first byte: such a string is short, and mostly a word. The count that it
// calls would be a closure in one function for both, whose clauses would stand in the contract: no plainer.
fn letters_of_short(source: &[u8], from: Place, to: Place, string: bool) -> u64
    requires { (from.0 ≤ to.0) × (to.0 ≤ length source.now) }
    ensures { (result ≡ pick string (letters (take (to.0 - from.0) (drop from.0 source.now))) 0) ×
        (result + from.0 ≤ to.0) }
{
    if string {
        let start = from.0;
        let after = to.0;
        return letters::count_word(&source[start..after]);
    }
    0
}

// The answer of a tally that met the file's end.
fn counted(last: Places, atoms: u64, body: BodyBytes, charge: u64, letters: u64) -> TallyAnswer
    ensures { result ≡ TA.Done last (tallied atoms body.0 charge letters) }
{
    let held = Tallied {
        atoms,
        body,
        charge,
        letters,
    };
    TallyAnswer::Done(last, held)
}

// The answer of a tally that met a bad atom, which starts where the last good one ends.
fn stopped(source: &[u8], first: Place, at: Place, refusal: Refusal) -> TallyAnswer
    ensures { result ≡ TA.Stopped (last_of source.now first at) refusal at }
{
    TallyAnswer::Stopped(last_places(source, first, at), refusal, at)
}

// The answer to an input that is too long, of which no atom was read.
fn too_long() -> TallyAnswer
    ensures { result ≡ TA.Refused no_places R.TooLong }
{
    let last = Places {
        first: Place(0),
        body: Place(0),
        after: Place(0),
    };
    TallyAnswer::Refused(last, Refusal::TooLong)
}

// Counts the atoms of a file that is not too long. Each is read with the largest budget, which no charge exceeds: what
// it takes of that is its charge, and each tells where the next one starts. What is no header is a body: the headers,
// one of each atom, and their bytes are counted, in one number, by 2^30 and by 1, so that the loop has no more to hold
// than a processor has registers.
fn tally_within(source: &[u8]) -> TallyAnswer
    requires { length source.now ≤ 16_777_216 }
    ensures { result ≡ tally_from (suc (length source.now)) source.now 0 nothing no_places }
{
    let mut headers: u64 = 0;
    let mut charge: u64 = 0;
    let mut letters: u64 = 0;
    let mut first = Place(0);
    let mut at = Place(0);
    while at.0 < source.len() {
        if let Some((end, rest, from, string)) = short_atom(
            source,
            at,
            Budget(0xFFFF_FFFF_FFFF_FFFF),
        ) {
            letters += letters_of_short(source, from, end, string);
            charge += 0xFFFF_FFFF_FFFF_FFFF - rest.0;
            headers += 0x4000_0001;
            first = at;
            at = end;
            continue;
        }
        match step_atom(source, at, Budget(0xFFFF_FFFF_FFFF_FFFF)) {
            Ok((place, rest, from, string)) => {
                letters += letters_of(source, from, place, string);
                charge += 0xFFFF_FFFF_FFFF_FFFF - rest.0;
                headers += 0x4000_0000 + (from.0 - at.0) as u64;
                first = at;
                at = place;
            }
            Err((_, _, refusal)) => return stopped(source, first, at, refusal),
        }
    }
    let atoms = headers / 0x4000_0000;
    let body = BodyBytes(at.0 as u64 - headers % 0x4000_0000);
    return counted(last_places(source, first, at), atoms, body, charge, letters);
}

// Counts a file's atoms, body bytes, charges and letters, or refuses at the first bad atom.
pub fn tally(source: &[u8]) -> TallyAnswer
    ensures { result ≡ tally_all source.now }
{
    if 16_777_216 < source.len() {
        return too_long();
    }
    tally_within(source)
}
