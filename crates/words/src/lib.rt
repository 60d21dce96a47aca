// Answers as numbers, for programs of other languages: each is a number, 0 or the refusal's, and twelve words in a lent
// array. The layout is `specs/Layout.antt`.
#![tactic(auto)]

ghost use Rattle.std.specs.Prelude.{◌≡◌};
ghost use Rattle.types.specs.Choice.{pick};
ghost use Rattle.words.specs.Layout.{says, says_at, laid, datum, number_of, words_of, integer_words, value_bits, nucleus_words, float_words};
ghost use Rattle.words.specs.Layout.{said_atom, said_skipped, said_ran, said_tally, said_checked, said_version, said_written, said_refused, said_word, said_integer, said_as_integer, said_cast, said_as_f32, said_as_f64, said_narrowed};
ghost use Rattle.binary.specs.Formats.{single, double};
ghost use Rattle.binary.specs.Conversions.{narrowed};

use types::{
    AtomAnswer, Checked, Float, Integer, Nucleus, Places, Ran, Refusal, Skipped, TallyAnswer,
    VersionAnswer, Wide,
};

// An integer: its variant, and its value in two's complement.
#[derive(Clone, Copy)]
pub struct IntegerWords {
    pub variant: u64,
    pub value: Wide,
}

// What an atom holds: its case, and three words.
#[derive(Clone, Copy)]
pub struct NucleusWords {
    pub case: u64,
    pub first: u64,
    pub second: u64,
    pub third: u64,
}

// How many words an answer has.
pub const WORD_COUNT: usize = 12;

// An answer's number and its words: refusal 9, and nothing is stored, where the array is shorter. The words are
// parameters, and no array, since docs/PROMISES.md has this function and `say` as they are.
pub fn say_all(
    words: &mut [u64],
    number: u64,
    a: u64,
    b: u64,
    c: u64,
    d: u64,
    e: u64,
    f: u64,
    g: u64,
    h: u64,
    first: u64,
    body: u64,
    after: u64,
) -> u64
    ensures value { result ≡ number_of (laid number a b c d e f g h first body after) words.old }
    ensures words_after { words.new ≡ words_of (laid number a b c d e f g h first body after) words.old }
{
    if words.len() < WORD_COUNT {
        return 9;
    }
    words[0] = a;
    words[1] = b;
    words[2] = c;
    words[3] = d;
    words[4] = e;
    words[5] = f;
    words[6] = g;
    words[7] = h;
    words[8] = first;
    words[9] = body;
    words[10] = after;
    words[11] = 0;
    number
}

// One that has no places.
pub fn say(
    words: &mut [u64],
    number: u64,
    a: u64,
    b: u64,
    c: u64,
    d: u64,
    e: u64,
    f: u64,
    g: u64,
    h: u64,
) -> u64
    ensures value { result ≡ number_of (says number a b c d e f g h) words.old }
    ensures words_after { words.new ≡ words_of (says number a b c d e f g h) words.old }
{
    say_all(words, number, a, b, c, d, e, f, g, h, 0, 0, 0)
}

// One of at most six words beside its places.
fn say_at(
    words: &mut [u64],
    number: u64,
    a: u64,
    b: u64,
    c: u64,
    d: u64,
    e: u64,
    f: u64,
    places: Places,
) -> u64
    ensures value { result ≡ number_of (says_at number a b c d e f 0 0 places) words.old }
    ensures words_after { words.new ≡ words_of (says_at number a b c d e f 0 0 places) words.old }
{
    let first = places.first.0 as u64;
    let body = places.body.0 as u64;
    let after = places.after.0 as u64;
    say_all(words, number, a, b, c, d, e, f, 0, 0, first, body, after)
}

// A refusal's data, zeros where it has fewer than two.
fn data(refusal: Refusal) -> (u64, u64)
    ensures { (result.0 ≡ datum 0 refusal) × (result.1 ≡ datum 1 refusal) }
{
    match refusal {
        Refusal::IncompatibleVersion => (0, 0),
        Refusal::InvalidKind(code) => (code as u64, 0),
        Refusal::UnknownSpecial(value) => (value, 0),
        Refusal::Eof => (0, 0),
        Refusal::TooManyBytesRead => (0, 0),
        Refusal::UnsupportedByteCount(kind, count) => (kind.code() as u64, count),
        Refusal::UnexpectedKind(kind, wanted) => (kind.code() as u64, wanted.code() as u64),
        Refusal::ImpreciseCastWouldLoseData => (0, 0),
        Refusal::NoRoom => (0, 0),
        Refusal::TooLong => (0, 0),
        Refusal::NotShortest => (0, 0),
    }
}

// 1 of true, 0 of false.
fn bit(value: bool) -> u64
    ensures { result ≡ pick value 1 0 }
{
    if value { 1 } else { 0 }
}

// An integer's words, put together.
fn of_variant(variant: u64, value: Wide) -> IntegerWords
    ensures { result ≡ record { variant = variant; value = value } }
{
    IntegerWords { variant, value }
}

// The words of an integer.
fn integer_words(x: Integer) -> IntegerWords
    ensures { result ≡ integer_words x }
{
    match x {
        Integer::I8(v) => return of_variant(0, cast::wide_of_i64(v as i64)),
        Integer::I16(v) => return of_variant(1, cast::wide_of_i64(v as i64)),
        Integer::I32(v) => return of_variant(2, cast::wide_of_i64(v as i64)),
        Integer::I64(v) => return of_variant(3, cast::wide_of_i64(v)),
        Integer::I128(v) => return of_variant(4, v),
        Integer::U8(v) => return of_variant(5, cast::wide_of_u64(v as u64)),
        Integer::U16(v) => return of_variant(6, cast::wide_of_u64(v as u64)),
        Integer::U32(v) => return of_variant(7, cast::wide_of_u64(v as u64)),
        Integer::U64(v) => return of_variant(8, cast::wide_of_u64(v)),
        Integer::U128(v) => return of_variant(9, v),
    }
}

// The bits of the value of a float that is no F64: of two bytes they are widened.
fn value_bits(arg: u64, stored: u64) -> u64
    ensures { result ≡ value_bits arg stored }
{
    if arg == 1 {
        return binary::f16_to_f32_bits((stored % 0x1_0000) as u16) as u64;
    }
    stored
}

// The words of a float of that argument.
fn float_words(arg: u64, value: Float, stored: u64) -> NucleusWords
    ensures { result ≡ float_words arg value stored }
{
    match value {
        Float::F64(_) => return NucleusWords {
            case: 3,
            first: 8,
            second: stored,
            third: stored,
        },
        Float::F32(_) => {
            let bits = value_bits(arg, stored);
            return NucleusWords {
                case: 3,
                first: 4,
                second: bits,
                third: stored,
            };
        }
    }
}

// The words of what an atom holds, put together.
fn of_case(case: u64, first: u64, second: u64, third: u64) -> NucleusWords
    ensures { result ≡ record { case = case; first = first; second = second; third = third } }
{
    NucleusWords {
        case,
        first,
        second,
        third,
    }
}

// The words of what an atom of that argument holds.
fn nucleus_words(arg: u64, nucleus: Nucleus) -> NucleusWords
    ensures { result ≡ nucleus_words arg nucleus }
{
    match nucleus {
        Nucleus::None => return of_case(0, 0, 0, 0),
        Nucleus::Boolean(value) => return of_case(1, bit(value), 0, 0),
        Nucleus::Integer(x) => {
            let said = integer_words(x);
            return of_case(2, said.variant, said.value.lo, said.value.hi);
        }
        Nucleus::Float(value, stored) => return float_words(arg, value, stored),
        Nucleus::Bytes(mark) => {
            return of_case(4, mark.start as u64, mark.len as u64, bit(mark.lent));
        }
        Nucleus::Unit => return of_case(5, 0, 0, 0),
        Nucleus::Named => return of_case(6, 0, 0, 0),
        Nucleus::DynamicMap => return of_case(7, 0, 0, 0),
        Nucleus::DynamicEnd => return of_case(8, 0, 0, 0),
    }
}

// An atom that was read. The place after it is said by the answer's own, which it is: the atom's would be one value
// more to carry through the reader, and a call would take longer.
pub fn say_atom(words: &mut [u64], answer: AtomAnswer) -> u64
    ensures value { result ≡ number_of (said_atom answer) words.old }
    ensures words_after { words.new ≡ words_of (said_atom answer) words.old }
{
    match answer {
        Ok((place, budget, atom)) => {
            let arg = atom.arg;
            let kind = atom.kind;
            let code = kind.code() as u64;
            let nucleus = atom.nucleus;
            let w = nucleus_words(arg, nucleus);
            return say_all(
                words,
                0,
                place.0 as u64,
                budget.0,
                code,
                arg,
                w.case,
                w.first,
                w.second,
                w.third,
                atom.places.first.0 as u64,
                atom.places.body.0 as u64,
                place.0 as u64,
            );
        }
        Err((place, budget, refusal)) => {
            let at = place.0 as u64;
            let (first, second) = data(refusal);
            let number = refusal.number();
            return say(words, number, at, budget.0, first, second, 0, 0, 0, 0);
        }
    }
}

// An atom that was skipped.
pub fn say_skipped(words: &mut [u64], answer: Skipped) -> u64
    ensures value { result ≡ number_of (said_skipped answer) words.old }
    ensures words_after { words.new ≡ words_of (said_skipped answer) words.old }
{
    match answer {
        Ok((place, budget, places, string)) => {
            let is_string = bit(string);
            let body = places.body.0 as u64;
            let at = place.0 as u64;
            return say_at(words, 0, at, budget.0, body, is_string, 0, 0, places);
        }
        Err((place, budget, refusal)) => {
            let (first, second) = data(refusal);
            return say(
                words,
                refusal.number(),
                place.0 as u64,
                budget.0,
                first,
                second,
                0,
                0,
                0,
                0,
            );
        }
    }
}

// A run.
pub fn say_ran(words: &mut [u64], answer: Ran) -> u64
    ensures value { result ≡ number_of (said_ran answer) words.old }
    ensures words_after { words.new ≡ words_of (said_ran answer) words.old }
{
    match answer {
        Ok(run) => {
            let at = run.place.0 as u64;
            return say_at(words, 0, at, run.budget.0, run.atoms, 0, 0, 0, run.last);
        }
        Err((run, refusal, start)) => {
            let (first, second) = data(refusal);
            let number = refusal.number();
            return say_at(
                words,
                number,
                run.place.0 as u64,
                run.budget.0,
                run.atoms,
                start.0 as u64,
                first,
                second,
                run.last,
            );
        }
    }
}

// A tally.
pub fn say_tally(words: &mut [u64], answer: TallyAnswer) -> u64
    ensures value { result ≡ number_of (said_tally answer) words.old }
    ensures words_after { words.new ≡ words_of (said_tally answer) words.old }
{
    match answer {
        TallyAnswer::Done(last, t) => {
            let body = t.body.0;
            return say_at(words, 0, t.atoms, body, t.charge, t.letters, 0, 0, last);
        }
        TallyAnswer::Stopped(last, refusal, start) => {
            let at = start.0 as u64;
            let (first, second) = data(refusal);
            let number = refusal.number();
            return say_at(words, number, at, first, second, 0, 0, 0, last);
        }
        TallyAnswer::Refused(last, refusal) => {
            let (first, second) = data(refusal);
            let number = refusal.number();
            return say_at(words, number, 0, first, second, 0, 0, 0, last);
        }
    }
}

// A check for shortest form.
pub fn say_checked(words: &mut [u64], answer: Checked) -> u64
    ensures value { result ≡ number_of (said_checked answer) words.old }
    ensures words_after { words.new ≡ words_of (said_checked answer) words.old }
{
    match answer {
        Ok(()) => return say(words, 0, 0, 0, 0, 0, 0, 0, 0, 0),
        Err((refusal, start)) => {
            let at = start.0 as u64;
            let (first, second) = data(refusal);
            return say(words, refusal.number(), at, first, second, 0, 0, 0, 0, 0);
        }
    }
}

// A signature that was read.
pub fn say_version(words: &mut [u64], answer: VersionAnswer) -> u64
    ensures value { result ≡ number_of (said_version answer) words.old }
    ensures words_after { words.new ≡ words_of (said_version answer) words.old }
{
    match answer {
        Ok((place, version)) => {
            return say(words, 0, place.0 as u64, version as u64, 0, 0, 0, 0, 0, 0);
        }
        Err((place, refusal)) => {
            return say(words, refusal.number(), place.0 as u64, 0, 0, 0, 0, 0, 0, 0);
        }
    }
}

// A refusal alone.
pub fn say_refused(words: &mut [u64], refusal: Refusal) -> u64
    ensures value { result ≡ number_of (said_refused refusal) words.old }
    ensures words_after { words.new ≡ words_of (said_refused refusal) words.old }
{
    let (first, second) = data(refusal);
    say(words, refusal.number(), first, second, 0, 0, 0, 0, 0, 0)
}

// A write.
pub fn say_written(words: &mut [u64], answer: Result<usize, Refusal>) -> u64
    ensures value { result ≡ number_of (said_written answer) words.old }
    ensures words_after { words.new ≡ words_of (said_written answer) words.old }
{
    match answer {
        Ok(count) => return say(words, 0, count as u64, 0, 0, 0, 0, 0, 0, 0),
        Err(refusal) => return say_refused(words, refusal),
    }
}

// An integer.
pub fn say_integer(words: &mut [u64], x: Integer) -> u64
    ensures value { result ≡ number_of (said_integer x) words.old }
    ensures words_after { words.new ≡ words_of (said_integer x) words.old }
{
    let said = integer_words(x);
    say(
        words,
        0,
        said.variant,
        said.value.lo,
        said.value.hi,
        0,
        0,
        0,
        0,
        0,
    )
}

// A cast to an integer.
pub fn say_as_integer(words: &mut [u64], answer: Result<Integer, Refusal>) -> u64
    ensures value { result ≡ number_of (said_as_integer answer) words.old }
    ensures words_after { words.new ≡ words_of (said_as_integer answer) words.old }
{
    match answer {
        Ok(x) => return say_integer(words, x),
        Err(refusal) => return say_refused(words, refusal),
    }
}

// A cast to an integer of a known variant.
pub fn say_cast(words: &mut [u64], answer: Result<Integer, Refusal>) -> u64
    ensures value { result ≡ number_of (said_cast answer) words.old }
    ensures words_after { words.new ≡ words_of (said_cast answer) words.old }
{
    match answer {
        Ok(x) => {
            let said = integer_words(x);
            return say(words, 0, said.value.lo, said.value.hi, 0, 0, 0, 0, 0, 0);
        }
        Err(refusal) => return say_refused(words, refusal),
    }
}

// One word.
pub fn say_word(words: &mut [u64], word: u64) -> u64
    ensures value { result ≡ number_of (said_word word) words.old }
    ensures words_after { words.new ≡ words_of (said_word word) words.old }
{
    say(words, 0, word, 0, 0, 0, 0, 0, 0, 0)
}

// A cast to an f32.
pub fn say_as_f32(words: &mut [u64], answer: Result<f32, Refusal>) -> u64
    ensures value { result ≡ number_of (said_as_f32 answer) words.old }
    ensures words_after { words.new ≡ words_of (said_as_f32 answer) words.old }
{
    match answer {
        Ok(x) => {
            let bits = binary::f32_pattern(x);
            return say_word(words, bits as u64);
        }
        Err(refusal) => return say_refused(words, refusal),
    }
}

// A cast to an f64.
pub fn say_as_f64(words: &mut [u64], answer: Result<f64, Refusal>) -> u64
    ensures value { result ≡ number_of (said_as_f64 answer) words.old }
    ensures words_after { words.new ≡ words_of (said_as_f64 answer) words.old }
{
    match answer {
        Ok(x) => {
            let bits = binary::f64_pattern(x);
            return say_word(words, bits);
        }
        Err(refusal) => return say_refused(words, refusal),
    }
}

// The bits of an f32 that equals an f64, given by its bits.
pub fn say_narrowed(words: &mut [u64], bits: u64) -> u64
    ensures value { result ≡ number_of (said_narrowed (narrowed double single bits)) words.old }
    ensures words_after { words.new ≡ words_of (said_narrowed (narrowed double single bits)) words.old }
{
    match binary::f64_to_f32_bits(bits) {
        Some(q) => return say_word(words, q as u64),
        None => return say_refused(words, Refusal::ImpreciseCastWouldLoseData),
    }
}
