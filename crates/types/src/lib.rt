// The types that every layer shares: kinds and specials, the ways of reading, the three counters, integers, floats and
// atoms, the refusals and the answers. Document 01: "Bytes of an atom", "Two ways of reading", "Refusals by number".
// Answers are a `Result`; those that a reader gives have the place (and the budget) first in both cases.
#![tactic(auto)]

ghost use Rattle.std.specs.Prelude.{◌≡◌, ◌≤◌, ◌<◌};
ghost use Rattle.types.specs.Kinds.{kind_code, kind_from, special_code, special_from};
ghost use Rattle.types.specs.Forms.{unsupported};
ghost use Rattle.types.specs.Refusals.{refusal_number, no_room};
ghost use Rattle.types.specs.Ways.{exact, unnamed_way};
ghost use Rattle.types.specs.Counters.{place_in};

// The type of an atom, by its code.
#[derive(Clone, Copy, PartialEq, Eq, Debug)]
pub enum Kind {
    // A value with a special meaning.
    Special = 0,
    // A signed integer. The argument is the byte count, minus one.
    Int = 1,
    // An unsigned integer. The argument is the byte count, minus one.
    UInt = 2,
    // A floating point value of 2, 4 or 8 bytes. The argument is the byte count, minus one.
    Float = 3,
    // A list of atoms. The argument is their number.
    Sequence = 4,
    // A list of key-value pairs. The argument is the number of pairs.
    Map = 5,
    // A symbol, its header only.
    Symbol = 6,
    // A series of bytes. The argument is their number.
    Bytes = 7,
}

// A special value type, by its argument.
#[derive(Clone, Copy, PartialEq, Eq, Debug)]
pub enum Special {
    None = 0,
    Unit = 1,
    False = 2,
    True = 3,
    // A named value: a symbol, then another value.
    Named = 4,
    // Key-value pairs of an unknown number.
    DynamicMap = 5,
    // The end of a DynamicMap.
    DynamicEnd = 6,
}

// The way of reading. Filled reads zero past the end; exact refuses. A string is lent as a part of the source, or
// copied into scratch; filled reading lends it.
#[derive(Clone, Copy, PartialEq, Eq, Debug)]
pub enum Way {
    Filled,
    ExactLent,
    ExactCopied,
}

// A place in the file.
#[derive(Clone, Copy, PartialEq, Eq, Debug)]
pub struct Place(pub usize);

// A number of body bytes: all after an atom's header.
#[derive(Clone, Copy, PartialEq, Eq, Debug)]
pub struct BodyBytes(pub u64);

// What is left of the memory budget.
#[derive(Clone, Copy, PartialEq, Eq, Debug)]
pub struct Budget(pub u64);

// A 128-bit value as two 64-bit words; of a signed value, its two's complement.
#[derive(Clone, Copy, PartialEq, Eq, Debug)]
pub struct Wide {
    pub lo: u64,
    pub hi: u64,
}

// An integer, by variant.
#[derive(Clone, Copy, PartialEq, Eq, Debug)]
pub enum Integer {
    I8(i8),
    I16(i16),
    I32(i32),
    I64(i64),
    I128(Wide),
    U8(u8),
    U16(u16),
    U32(u32),
    U64(u64),
    U128(Wide),
}

// A float carries its value.
#[derive(Clone, Copy)]
pub enum Float {
    F64(f64),
    F32(f32),
}

// Where a string's bytes are: a part of the source if lent, else of the scratch.
#[derive(Clone, Copy, PartialEq, Eq, Debug)]
pub struct Mark {
    pub start: usize,
    pub len: usize,
    pub lent: bool,
}

// What an atom holds. Beside a float's value stand its stored bits, since a NaN's sign and payload are in these alone.
#[derive(Clone, Copy)]
pub enum Nucleus {
    None,
    Boolean(bool),
    Integer(Integer),
    Float(Float, u64),
    Bytes(Mark),
    Unit,
    Named,
    DynamicMap,
    DynamicEnd,
}

// Where an atom stands in its source: its first place, the place where its body starts and the place after it.
#[derive(Clone, Copy, PartialEq, Eq, Debug)]
pub struct Places {
    pub first: Place,
    pub body: Place,
    pub after: Place,
}

// A kind, its argument, its places, and the value that follows, if any.
#[derive(Clone, Copy)]
pub struct Atom {
    pub kind: Kind,
    pub arg: u64,
    pub places: Places,
    pub nucleus: Nucleus,
}

// The refusals, in the order of their numbers from 1 on.
#[derive(Clone, Copy, PartialEq, Eq, Debug)]
pub enum Refusal {
    IncompatibleVersion,
    InvalidKind(u8),
    UnknownSpecial(u64),
    Eof,
    TooManyBytesRead,
    UnsupportedByteCount(Kind, u64),
    UnexpectedKind(Kind, Kind),
    ImpreciseCastWouldLoseData,
    NoRoom,
    TooLong,
    NotShortest,
}

// What a reader answers of a header: the place after it, its kind and its argument; of a refused one the place that is
// left and the refusal.
pub type HeaderAnswer = Result<(Place, Kind, u64), (Place, Refusal)>;

// What reading the signature answers: the version.
pub type VersionAnswer = Result<(Place, u8), (Place, Refusal)>;

pub type IntegerAnswer = Result<(Place, Integer), (Place, Refusal)>;

// What reading a float answers: its value, and its stored bits.
pub type FloatAnswer = Result<(Place, Float, u64), (Place, Refusal)>;

// What reading a string answers.
pub type BytesAnswer = Result<(Place, Mark), (Place, Refusal)>;

// What a raw read into a lent buffer answers: how many bytes of the buffer it filled.
pub type RawAnswer = Result<(Place, usize), (Place, Refusal)>;

pub type AtomAnswer = Result<(Place, Budget, Atom), (Place, Budget, Refusal)>;

// What the step that builds no value answers: the place after the atom, the budget left, the atom's places, and whether
// it is a string.
pub type Skipped = Result<(Place, Budget, Places, bool), (Place, Budget, Refusal)>;

// How far a run came: the place, the budget left, the number of atoms read and the places of the last of them, zeros if
// there was none.
#[derive(Clone, Copy, PartialEq, Eq, Debug)]
pub struct Run {
    pub place: Place,
    pub budget: Budget,
    pub atoms: u64,
    pub last: Places,
}

// What a run answers; of a refused atom also its refusal, and the place where it starts.
pub type Ran = Result<Run, (Run, Refusal, Place)>;

// What a file holds: its atoms, their body bytes, their charges and the letters of their strings.
#[derive(Clone, Copy, PartialEq, Eq, Debug)]
pub struct Tallied {
    pub atoms: u64,
    pub body: BodyBytes,
    pub charge: u64,
    pub letters: u64,
}

// What a tally answers: the places of the last atom that it read, zeros if there was none; then what the file holds, or
// of a refused atom its refusal and the place where it starts. An input that is too long is refused before any is read.
// Of three cases, the last without a place, so that it has the shape of neither `Result` nor `Option`.
#[derive(Clone, Copy)]
pub enum TallyAnswer {
    Done(Places, Tallied),
    Stopped(Places, Refusal, Place),
    Refused(Places, Refusal),
}

// What the check for shortest form answers: of a refused atom its refusal, and the place where it starts.
pub type Checked = Result<(), (Refusal, Place)>;

impl Kind {
    // Converts from a code; refusal 2 of one that no kind has. By the original's name, and not as `TryFrom`.
    pub fn from_u8(kind: u8) -> Result<Kind, Refusal>
        ensures { result ≡ kind_from kind }
    {
        match kind {
            0 => Ok(Kind::Special),
            1 => Ok(Kind::Int),
            2 => Ok(Kind::UInt),
            3 => Ok(Kind::Float),
            4 => Ok(Kind::Sequence),
            5 => Ok(Kind::Map),
            6 => Ok(Kind::Symbol),
            7 => Ok(Kind::Bytes),
            _ => Err(Refusal::InvalidKind(kind)),
        }
    }

    // The code of a kind.
    pub fn code(self) -> u8
        ensures { (result ≡ kind_code self) × (result < 8) }
    {
        self as u8
    }
}

impl TryFrom<u64> for Special {
    type Error = Refusal;

    ghost try_from_gives = { λ value answer. answer ≡ special_from value };

    // Converts from an argument; refusal 3 of one that no special has.
    fn try_from(value: u64) -> Result<Special, Refusal> {
        match value {
            0 => Ok(Special::None),
            1 => Ok(Special::Unit),
            2 => Ok(Special::False),
            3 => Ok(Special::True),
            4 => Ok(Special::Named),
            5 => Ok(Special::DynamicMap),
            6 => Ok(Special::DynamicEnd),
            _ => Err(Refusal::UnknownSpecial(value)),
        }
    }
}

impl Special {
    // The argument of a special.
    pub fn code(self) -> u64
        ensures { result ≡ special_code self }
    {
        self as u64
    }
}

impl Way {
    // The way of the entry that names none: nobody is to get zeros who did not ask for them.
    pub fn unnamed() -> Way
        ensures { result ≡ unnamed_way }
    {
        return Way::ExactLent;
    }

    // Whether anything past the end is refused.
    pub fn is_exact(self) -> bool
        ensures { result ≡ exact self }
    {
        match self {
            Way::Filled => false,
            Way::ExactLent => true,
            Way::ExactCopied => true,
        }
    }
}

impl Place {
    // The place within a source of that length: one past the end counts as the end.
    pub fn within(self, length: usize) -> usize
        ensures { (result ≡ place_in length self.0) × (result ≤ length) }
    {
        let place = self.0;
        if length < place {
            return length;
        }
        return place;
    }
}

impl Refusal {
    // The refusal's number.
    pub fn number(self) -> u64
        ensures { result ≡ refusal_number self }
    {
        match self {
            Refusal::IncompatibleVersion => 1,
            Refusal::InvalidKind(_) => 2,
            Refusal::UnknownSpecial(_) => 3,
            Refusal::Eof => 4,
            Refusal::TooManyBytesRead => 5,
            Refusal::UnsupportedByteCount(_, _) => 6,
            Refusal::UnexpectedKind(_, _) => 7,
            Refusal::ImpreciseCastWouldLoseData => 8,
            Refusal::NoRoom => 9,
            Refusal::TooLong => 10,
            Refusal::NotShortest => 11,
        }
    }

    // Refusal 9, of a write or a string that takes `needed` bytes: its one home.
    pub fn no_room(needed: usize) -> Refusal
        ensures { result ≡ no_room needed }
    {
        return Refusal::NoRoom;
    }

    // Refusal 6, of a number of a kind that is not read with so many bytes: its one home.
    pub fn unsupported(kind: Kind, count: u64) -> Refusal
        ensures { result ≡ unsupported kind count }
    {
        return Refusal::UnsupportedByteCount(kind, count);
    }
}
