// The reader that holds the slice still to be read, over the finished core. Document 01, "Two ways of reading" and
// "Port order and changes of shape", and `SliceReader` of reader.rs. It reads filled: a number byte past the end reads
// as zero, and only a string can run out. What is for whom:
//
// `SliceReader` and its functions are the original's reader, for a caller that holds one and goes on with it, as
// `held_over` of `test_slice_reader` does. A read answers a struct, the answer beside the reader. Each function is
// thin: it takes the reader apart and calls what stands on the plain slice.
//
// `left_from`, and of each read the one at a slice's start and what it leaves (`integer_at_start`, `left_by_integer`),
// do the work. They are for the functions over the reader, and for a caller that carries the slice itself.
//
// The six functions at the end, `len_of` to `rest_after_atom`, make a reader of a slice, let it do one thing and hand
// back what is plain of it. They are for a caller that carries the slice and wants the reader's own word: the replay,
// whose loop over a sequence of reads goes by them, so that the reader's functions are held to the original's.
#![tactic(auto)]

ghost use Rattle.std.specs.Prelude.{◌≡◌, eqb, length};
ghost use Rattle.slice_reader.specs.Left.{LeftOf};
ghost use Rattle.slice_reader.specs.Given.{integer_given, float_given, string_given, atom_given};
ghost use Rattle.slice_reader.specs.Given.{integer_place, float_place, string_place, atom_place};

use types::{AtomAnswer, Budget, BytesAnswer, FloatAnswer, IntegerAnswer, Kind, Place, Way};

// Reads data from a slice: what it holds is the slice still to be read.
#[derive(Clone, Copy)]
pub struct SliceReader<'a> {
    pub data: &'a [u8],
}

// What a read answers, and the reader after it. A string's mark is a part of the slice as it was before the read.
#[derive(Clone, Copy)]
pub struct Read<'a, A> {
    pub answer: A,
    pub reader: SliceReader<'a>,
}

// The part of a slice from a place on.
pub fn left_from(data: &[u8], place: Place) -> &[u8]
    ensures { LeftOf «data».entry place.0 result }
{
    let at = place.within(data.len());
    &data[at..]
}

// The integer at the start of a slice.
pub fn integer_at_start(data: &[u8], kind: Kind, count: u64) -> IntegerAnswer
    ensures { result ≡ integer_given «data».now kind count }
{
    integer::read_from(kind, count, data, Place(0), Way::Filled)
}

// What an integer read leaves of a slice.
pub fn left_by_integer(data: &[u8], answer: IntegerAnswer) -> &[u8]
    ensures { LeftOf «data».entry (integer_place answer) result }
{
    match answer {
        Ok((place, _)) | Err((place, _)) => left_from(data, place),
    }
}

// The float at the start of a slice.
pub fn float_at_start(data: &[u8], kind: Kind, count: u64) -> FloatAnswer
    ensures { result ≡ float_given «data».now kind count }
{
    float::read_from(kind, count, data, Place(0), Way::Filled)
}

// What a float read leaves of a slice.
pub fn left_by_float(data: &[u8], answer: FloatAnswer) -> &[u8]
    ensures { LeftOf «data».entry (float_place answer) result }
{
    match answer {
        Ok((place, _, _)) | Err((place, _)) => left_from(data, place),
    }
}

// The string at the start of a slice.
pub fn string_at_start(data: &[u8], length: u64) -> BytesAnswer
    ensures { result ≡ string_given «data».now length }
{
    reader::lend_bytes(data, Place(0), length)
}

// What a string read leaves of a slice.
pub fn left_by_string(data: &[u8], answer: BytesAnswer) -> &[u8]
    ensures { LeftOf «data».entry (string_place answer) result }
{
    match answer {
        Ok((end, _)) | Err((end, _)) => left_from(data, end),
    }
}

// The atom at the start of a slice.
pub fn atom_at_start(data: &[u8], budget: Budget) -> AtomAnswer
    ensures { result ≡ atom_given «data».now budget }
{
    let mut scratch = [0u8; 0];
    atom::read_atom_by(data, Place(0), budget, &mut scratch, Way::Filled)
}

// What an atom read leaves of a slice.
pub fn left_by_atom(data: &[u8], answer: AtomAnswer) -> &[u8]
    ensures { LeftOf «data».entry (atom_place answer) result }
{
    match answer {
        Ok((place, _, _)) | Err((place, _, _)) => left_from(data, place),
    }
}

impl<'a> SliceReader<'a> {
    // The reader of a whole slice.
    pub fn from(data: &'a [u8]) -> SliceReader<'a>
        ensures { result.«data» ≡ «data».entry }
    {
        SliceReader { data }
    }

    // The slice still to be read.
    pub fn rest(self) -> &'a [u8]
        ensures { result ≡ self.entry.«data» }
    {
        self.data
    }

    // Returns the number of bytes remaining to read.
    pub fn len(self) -> usize
        ensures { result ≡ length self.entry.«data».now }
    {
        self.data.len()
    }

    // Returns `true` if there are no bytes remaining to read.
    pub fn is_empty(self) -> bool
        ensures { result ≡ eqb (length self.entry.«data».now) 0 }
    {
        self.data.len() == 0
    }

    // Reads an integer of a kind and a count of bytes.
    pub fn read_integer(self, kind: Kind, count: u64) -> Read<'a, IntegerAnswer>
        ensures { (result.answer ≡ integer_given self.entry.«data».now kind count) ×
            LeftOf self.entry.«data» (integer_place result.answer) result.reader.«data» }
    {
        let data = self.data;
        let answer = integer_at_start(data, kind, count);
        let left = left_by_integer(data, answer);
        Read {
            answer,
            reader: SliceReader { data: left },
        }
    }

    // Reads a float of a kind and a count of bytes.
    pub fn read_float(self, kind: Kind, count: u64) -> Read<'a, FloatAnswer>
        ensures { (result.answer ≡ float_given self.entry.«data».now kind count) ×
            LeftOf self.entry.«data» (float_place result.answer) result.reader.«data» }
    {
        let data = self.data;
        let answer = float_at_start(data, kind, count);
        let left = left_by_float(data, answer);
        Read {
            answer,
            reader: SliceReader { data: left },
        }
    }

    // Reads exactly `length` bytes, lent.
    pub fn buffered_read_bytes(self, length: u64) -> Read<'a, BytesAnswer>
        ensures { (result.answer ≡ string_given self.entry.«data».now length) ×
            LeftOf self.entry.«data» (string_place result.answer) result.reader.«data» }
    {
        let data = self.data;
        let answer = string_at_start(data, length);
        let left = left_by_string(data, answer);
        Read {
            answer,
            reader: SliceReader { data: left },
        }
    }

    // Reads an atom, strings lent, and charges the budget, which comes back in the answer.
    pub fn read_atom(self, budget: Budget) -> Read<'a, AtomAnswer>
        ensures { (result.answer ≡ atom_given self.entry.«data».now budget) ×
            LeftOf self.entry.«data» (atom_place result.answer) result.reader.«data» }
    {
        let data = self.data;
        let answer = atom_at_start(data, budget);
        let left = left_by_atom(data, answer);
        Read {
            answer,
            reader: SliceReader { data: left },
        }
    }
}

impl<'a, A: Copy> Read<'a, A> {
    // The slice still to be read after what was read.
    pub fn rest(self) -> &'a [u8]
        ensures { result ≡ self.entry.reader.«data» }
    {
        self.reader.data
    }
}

// The bytes that a reader of the whole slice has to read.
pub fn len_of(data: &[u8]) -> usize
    ensures { result ≡ length «data».now }
{
    SliceReader::from(data).len()
}

// Whether a reader of the whole slice has nothing to read.
pub fn is_empty_of(data: &[u8]) -> bool
    ensures { result ≡ eqb (length «data».now) 0 }
{
    SliceReader::from(data).is_empty()
}

// The slice that a reader has still to read once it has read an integer.
pub fn rest_after_integer(data: &[u8], kind: Kind, count: u64) -> &[u8]
    ensures { LeftOf «data».entry (integer_place (integer_given «data».now kind count)) result }
{
    SliceReader::from(data).read_integer(kind, count).rest()
}

// The slice that a reader has still to read once it has read a float.
pub fn rest_after_float(data: &[u8], kind: Kind, count: u64) -> &[u8]
    ensures { LeftOf «data».entry (float_place (float_given «data».now kind count)) result }
{
    SliceReader::from(data).read_float(kind, count).rest()
}

// The slice that a reader has still to read once it has read a string.
pub fn rest_after_string(data: &[u8], length: u64) -> &[u8]
    ensures { LeftOf «data».entry (string_place (string_given «data».now length)) result }
{
    SliceReader::from(data).buffered_read_bytes(length).rest()
}

// The slice that a reader has still to read once it has read an atom.
pub fn rest_after_atom(data: &[u8], budget: Budget) -> &[u8]
    ensures { LeftOf «data».entry (atom_place (atom_given «data».now budget)) result }
{
    SliceReader::from(data).read_atom(budget).rest()
}
