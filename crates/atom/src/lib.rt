// One atom: its header, its charge, and its body, in the order of document 01, "Charges". format.rs, `read_atom` to
// `update_budget`.
#![tactic(auto)]

ghost use Rattle.std.specs.Prelude.{◌≡◌, true, [], ◌≤◌, ◌<◌, ◌+◌, ◌-◌, ◌^◌, length};
ghost use Rattle.types.specs.Ways.{unnamed_way};
ghost use Rattle.types.specs.Counters.{places_of};
ghost use Rattle.types.specs.Forms.{count_of, number_charge};
ghost use Rattle.types.specs.declared.Kind.TheVariants as K;
ghost use Rattle.integer.specs.Integers.{integer_kind};
ghost use Rattle.float.specs.Floats.{float_of};
ghost use Rattle.atom.specs.Charges.{budget_after};
ghost use Rattle.atom.specs.Atoms.{atom_of, special_nucleus, at_place, with_budget, judged, special_taken, integer_taken, float_taken};
ghost use Rattle.atom.specs.Atoms.{bytes_taken, atom_after, scratch_after, atom_read, atom_scratch};

use types::{
    Atom, AtomAnswer, Budget, BytesAnswer, HeaderAnswer, Integer, Kind, Mark, Nucleus, Place,
    Places, Refusal, Special, Way,
};

// The byte count of a number's argument, modulo 2^64 as in the release build.
pub fn count_of(arg: u64) -> u64
    ensures { (result ≡ count_of arg) × (result < 2 ^ 64) }
{
    if arg == 0xFFFF_FFFF_FFFF_FFFF {
        return 0;
    }
    arg + 1
}

// What a number of that many bytes takes in memory: some are stored more compactly than they are held.
pub fn in_memory_int_size(encoded_length: u64) -> u64
    ensures { result ≡ number_charge encoded_length }
{
    match encoded_length {
        3 => 4,
        6 => 8,
        _ => encoded_length,
    }
}

// The budget less what is read, or refusal 5.
pub fn update_budget(budget: Budget, read_amount: u64) -> Result<Budget, Refusal>
    ensures { result ≡ budget_after budget read_amount }
{
    let remaining = budget.0;
    if remaining < read_amount {
        return Err(Refusal::TooManyBytesRead);
    }
    Ok(Budget(remaining - read_amount))
}

fn nucleus_of(special: Special) -> Nucleus
    ensures { result ≡ special_nucleus special }
{
    match special {
        Special::None => Nucleus::None,
        Special::Unit => Nucleus::Unit,
        Special::False => Nucleus::Boolean(false),
        Special::True => Nucleus::Boolean(true),
        Special::Named => Nucleus::Named,
        Special::DynamicMap => Nucleus::DynamicMap,
        Special::DynamicEnd => Nucleus::DynamicEnd,
    }
}

// A header that was read: where its atom starts, where the body starts, its kind and its argument.
#[derive(Clone, Copy)]
struct Header {
    first: Place,
    body: Place,
    kind: Kind,
    arg: u64,
}

impl Header {
    // The atom that ends at a place and holds what is given.
    fn atom(self, after: Place, nucleus: Nucleus) -> Atom
        ensures { result ≡ atom_of self.kind self.arg (places_of self.first self.body after) nucleus }
    {
        let places = Places {
            first: self.first,
            body: self.body,
            after,
        };
        Atom {
            kind: self.kind,
            arg: self.arg,
            places,
            nucleus,
        }
    }

    // A refusal past this header, before anything is charged.
    fn past<T>(
        self,
        budget: Budget,
        answer: Result<T, Refusal>,
    ) -> Result<T, (Place, Budget, Refusal)>
        ensures { result ≡ at_place self.body budget answer }
    {
        answer.map_err(|refusal| (self.body, budget, refusal))
    }
}

// A refusal that has its place, with the budget that is left.
fn with_budget<T>(
    budget: Budget,
    answer: Result<T, (Place, Refusal)>,
) -> Result<T, (Place, Budget, Refusal)>
    ensures { result ≡ with_budget budget answer }
{
    answer.map_err(|(place, refusal)| (place, budget, refusal))
}

// A special, once its header is read.
fn read_special(header: Header, budget: Budget) -> AtomAnswer
    requires { header.kind ≡ K.Special }
    ensures { result ≡
        judged K.Special header.arg header.body budget
        (special_taken header.arg header.first header.body) }
{
    let next = header.body;
    let special = header.past(budget, Special::try_from(header.arg))?;
    Ok((next, budget, header.atom(next, nucleus_of(special))))
}

// An integer, once its header is read.
fn read_integer(source: &[u8], header: Header, budget: Budget, way: Way) -> AtomAnswer
    requires { (header.body.0 ≤ length source.now) × (integer_kind header.kind ≡ true) }
    ensures { result ≡
        judged header.kind header.arg header.body budget
        (integer_taken way source.now header.kind header.arg header.first header.body) }
{
    let bytes = count_of(header.arg);
    let rest = header.past(budget, update_budget(budget, in_memory_int_size(bytes)))?;
    if integer::allowed(bytes) {
        let at = header.body.0;
        let count = bytes as usize;
        if count <= source.len() - at {
            let value = integer::integer_at(header.kind, source, at, bytes);
            let after = Place(at + count);
            return Ok((after, rest, header.atom(after, Nucleus::Integer(value))));
        }
        let end = Place(source.len());
        if way.is_exact() {
            return Err((end, rest, Refusal::Eof));
        }
        let value = integer::filled_integer(header.kind, source, at, bytes);
        return Ok((end, rest, header.atom(end, Nucleus::Integer(value))));
    }
    Err((header.body, rest, Refusal::unsupported(header.kind, bytes)))
}

// A float, once its header is read. Its stored bits stand beside its value.
fn read_float(source: &[u8], header: Header, budget: Budget, way: Way) -> AtomAnswer
    requires { (header.body.0 ≤ length source.now) × (header.kind ≡ K.Float) }
    ensures { result ≡
        judged K.Float header.arg header.body budget
        (float_taken way source.now header.arg header.first header.body) }
{
    let bytes = count_of(header.arg);
    let rest = header.past(budget, update_budget(budget, in_memory_int_size(bytes)))?;
    if float::allowed(bytes) {
        let at = header.body.0;
        let count = bytes as usize;
        if count <= source.len() - at {
            let bits = float::stored_bits(source, at, bytes);
            let after = Place(at + count);
            let nucleus = Nucleus::Float(float::float_of(bytes, bits), bits);
            return Ok((after, rest, header.atom(after, nucleus)));
        }
        let end = Place(source.len());
        if way.is_exact() {
            return Err((end, rest, Refusal::Eof));
        }
        let bits = float::filled_bits(source, at, bytes);
        let nucleus = Nucleus::Float(float::float_of(bytes, bits), bits);
        return Ok((end, rest, header.atom(end, nucleus)));
    }
    Err((header.body, rest, Refusal::unsupported(Kind::Float, bytes)))
}

// A string, once its header is read: lent as a part of the source, or copied into scratch.
fn read_bytes(
    source: &[u8],
    header: Header,
    budget: Budget,
    scratch: &mut [u8],
    way: Way,
) -> AtomAnswer
    requires { header.kind ≡ K.Bytes }
    ensures value { result ≡
        judged K.Bytes header.arg header.body budget
        (bytes_taken way source.now header.arg header.first header.body scratch.old) }
    ensures scratch_after { scratch.new ≡
        scratch_after way source.now K.Bytes header.arg header.body budget scratch.old }
{
    let rest = header.past(budget, update_budget(budget, header.arg))?;
    let read = reader::buffered_read_bytes(source, header.body, header.arg, scratch, way);
    let (after, mark) = with_budget(rest, read)?;
    Ok((after, rest, header.atom(after, Nucleus::Bytes(mark))))
}

// What follows a header, by its kind. Each arm returns by itself: where they came together, a call for a short string
// took a third longer.
fn read_body(
    source: &[u8],
    header: Header,
    budget: Budget,
    scratch: &mut [u8],
    way: Way,
) -> AtomAnswer
    requires { header.body.0 ≤ length source.now }
    ensures value { result ≡
        atom_after way source.now header.kind header.arg header.first header.body budget
        scratch.old }
    ensures scratch_after { scratch.new ≡
        scratch_after way source.now header.kind header.arg header.body budget scratch.old }
{
    match header.kind {
        Kind::Sequence | Kind::Map | Kind::Symbol => {
            return Ok((header.body, budget, header.atom(header.body, Nucleus::None)));
        }
        Kind::Special => return read_special(header, budget),
        Kind::Int | Kind::UInt => return read_integer(source, header, budget, way),
        Kind::Float => return read_float(source, header, budget, way),
        Kind::Bytes => return read_bytes(source, header, budget, scratch, way),
    }
}

// Reads an atom under a way. A string that the way copies goes into scratch.
pub fn read_atom_by(
    source: &[u8],
    place: Place,
    budget: Budget,
    scratch: &mut [u8],
    way: Way,
) -> AtomAnswer
    ensures value { result ≡ atom_read way source.now place.0 budget scratch.old }
    ensures scratch_after { scratch.new ≡
        atom_scratch way source.now place.0 budget scratch.old }
{
    let read = header::read_atom_header_by(source, place, way);
    let (body, kind, arg) = with_budget(budget, read)?;
    let header = Header {
        first: Place(place.within(source.len())),
        body,
        kind,
        arg,
    };
    read_body(source, header, budget, scratch, way)
}

// Reads an atom, strings lent, by the way of the entry that names none.
pub fn read_atom(source: &[u8], place: Place, budget: Budget) -> AtomAnswer
    ensures { result ≡ atom_read unnamed_way source.now place.0 budget [] }
{
    let mut scratch = [0u8; 0];
    read_atom_by(source, place, budget, &mut scratch, Way::unnamed())
}
