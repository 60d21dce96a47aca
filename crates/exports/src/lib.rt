// The library's functions on numbers and slices alone, for programs of other languages: each answers a number, 0 or the
// refusal's, and writes twelve words, as `words.Layout` says. A float goes in and out as its bits. Those that differ in
// the function alone that they call stand each by itself, since each is one of the C interface.
#![tactic(auto)]

ghost use Rattle.std.specs.Prelude.{Err, ◌≡◌, not, [], eqb, ltb};
ghost use Rattle.std.specs.Float.{binary32, binary64};
ghost use Rattle.std.specs.Float.Ieee.{of_bits};
ghost use Rattle.types.specs.Choice.{pick};
ghost use Rattle.types.specs.Kinds.{kind_from, special_from};
ghost use Rattle.types.specs.Ways.{unnamed_way};
ghost use Rattle.types.specs.declared.Way.TheVariants.{Filled, ExactLent, ExactCopied};
ghost use Rattle.types.specs.declared.Special.TheVariants.{None, Unit, Named};
ghost use Rattle.types.specs.declared.Float.TheVariants.{F32, F64};
ghost use Rattle.lent.specs.Lent.{written_answer, written_content};
ghost use Rattle.header.specs.Header.{header_bytes};
ghost use Rattle.header.specs.Signature.{version_read, signature_bytes};
ghost use Rattle.little.specs.Counts.{holds_s, holds_u};
ghost use Rattle.binary.specs.Formats.{single, double};
ghost use Rattle.binary.specs.Conversions.{widened, narrowed};
ghost use Rattle.types.specs.Values.{joined, joined_signed};
ghost use Rattle.cast.specs.Casts.{as_f32, as_f64};
ghost use Rattle.writers.specs.Bytes.{special_bytes, truth, signed_bytes, unsigned_bytes, value_bytes, bytes_bytes, held_answer, held_content};
ghost use Rattle.float.specs.Bytes.{f32_bytes, f64_bytes};
ghost use Rattle.float_cast.specs.Integral.{as_integer};
ghost use Rattle.atom.specs.Atoms.{atom_read, atom_scratch};
ghost use Rattle.dictionary.specs.Steps.{skipped};
ghost use Rattle.dictionary.specs.Runs.{run_all, tally_all};
ghost use Rattle.shortest.specs.Checks.{check_all};
ghost use Rattle.words.specs.Layout.{word_count, number_of, words_of, unless_short, said_atom, said_skipped, said_ran, said_tally, said_checked, said_version, said_written};
ghost use Rattle.words.specs.Layout.{said_refused, said_word, said_cast, said_as_integer, said_as_f32, said_as_f64, said_narrowed};
ghost use Rattle.recast.specs.Recasts.{recast, integer_of_words, of_integer};
ghost use Rattle.exports.specs.Named.{of_kind, of_special};

use types::{Budget, Float, Kind, Place, Special, Way, Wide};

// How much of a buffer is lent to a writer: all of it, or nothing where the words have no room, since nothing is done
// then. With no byte lent nothing is written, and what says the answer refuses for the words.
fn granted(words: usize, room: usize) -> usize
    ensures { result ≡ pick (ltb words word_count) 0 room }
{
    if words < words::WORD_COUNT {
        return 0;
    }
    room
}

// Reads an atom under a way: the one place that calls the reader. The parameters stand as the exports have them, so
// that source, place, budget and words stay in the registers that they came in: all that is read waits for the place,
// and over the stack it would come later. The scratch, which few atoms need, goes over the stack. The source is lent
// whole, as a part of itself, so that its address and length are read at once.
fn read_by(
    source: &[u8],
    place: usize,
    budget: u64,
    words: &mut [u64],
    scratch: &mut [u8],
    way: Way,
) -> u64
    ensures value { result ≡
        number_of (said_atom (atom_read way source.now place (record { 0 = budget }) scratch.old))
        words.old }
    ensures words_after { words.new ≡
        words_of (said_atom (atom_read way source.now place (record { 0 = budget }) scratch.old))
        words.old }
    ensures scratch_after { scratch.new ≡
        atom_scratch way source.now place (record { 0 = budget }) scratch.old }
{
    let answer = atom::read_atom_by(&source[0..], Place(place), Budget(budget), scratch, way);
    words::say_atom(words, answer)
}

// Reads an atom by the way of the entry that names none, which is exact; a string is lent.
pub fn pot_read_atom(source: &[u8], place: usize, budget: u64, words: &mut [u64]) -> u64
    ensures value { result ≡
        number_of (said_atom (atom_read unnamed_way source.now place (record { 0 = budget }) []))
        words.old }
    ensures words_after { words.new ≡
        words_of (said_atom (atom_read unnamed_way source.now place (record { 0 = budget }) []))
        words.old }
{
    let mut scratch = [0u8; 0];
    read_by(source, place, budget, words, &mut scratch, Way::unnamed())
}

// Reads an atom, with zeros for what is missing of a header or a number; a string is lent.
pub fn pot_read_atom_filled(source: &[u8], place: usize, budget: u64, words: &mut [u64]) -> u64
    ensures value { result ≡
        number_of (said_atom (atom_read Filled source.now place (record { 0 = budget }) []))
        words.old }
    ensures words_after { words.new ≡
        words_of (said_atom (atom_read Filled source.now place (record { 0 = budget }) []))
        words.old }
{
    let mut scratch = [0u8; 0];
    read_by(source, place, budget, words, &mut scratch, Way::Filled)
}

// Reads an atom exactly; a string is lent.
pub fn pot_read_atom_exact(source: &[u8], place: usize, budget: u64, words: &mut [u64]) -> u64
    ensures value { result ≡
        number_of (said_atom (atom_read ExactLent source.now place (record { 0 = budget }) []))
        words.old }
    ensures words_after { words.new ≡
        words_of (said_atom (atom_read ExactLent source.now place (record { 0 = budget }) []))
        words.old }
{
    let mut scratch = [0u8; 0];
    read_by(source, place, budget, words, &mut scratch, Way::ExactLent)
}

// Reads an atom exactly; a string is copied into scratch.
pub fn pot_read_atom_copied(
    source: &[u8],
    place: usize,
    budget: u64,
    scratch: &mut [u8],
    words: &mut [u64],
) -> u64
    ensures value { result ≡
        number_of (said_atom (atom_read ExactCopied source.now place (record { 0 = budget })
        scratch.old)) words.old }
    ensures words_after { words.new ≡
        words_of (said_atom (atom_read ExactCopied source.now place (record { 0 = budget })
        scratch.old)) words.old }
    ensures scratch_after { scratch.new ≡
        unless_short words.old scratch.old
        (atom_scratch ExactCopied source.now place (record { 0 = budget }) scratch.old) }
{
    let room = granted(words.len(), scratch.len());
    read_by(
        source,
        place,
        budget,
        words,
        &mut scratch[0..room],
        Way::ExactCopied,
    )
}

// Reads an atom exactly and builds no value.
pub fn pot_skip_atom(source: &[u8], place: usize, budget: u64, words: &mut [u64]) -> u64
    ensures value { result ≡
        number_of (said_skipped (skipped source.now place (record { 0 = budget }))) words.old }
    ensures words_after { words.new ≡
        words_of (said_skipped (skipped source.now place (record { 0 = budget }))) words.old }
{
    words::say_skipped(
        words,
        dictionary::skip_atom(source, Place(place), Budget(budget)),
    )
}

// Reads the atoms of a whole file exactly.
pub fn pot_run(source: &[u8], budget: u64, words: &mut [u64]) -> u64
    ensures value { result ≡
        number_of (said_ran (run_all source.now (record { 0 = budget }))) words.old }
    ensures words_after { words.new ≡
        words_of (said_ran (run_all source.now (record { 0 = budget }))) words.old }
{
    words::say_ran(words, dictionary::run(source, Budget(budget)))
}

// Counts the atoms of a whole file, their body bytes, charges and letters.
pub fn pot_tally(source: &[u8], words: &mut [u64]) -> u64
    ensures value { result ≡ number_of (said_tally (tally_all source.now)) words.old }
    ensures words_after { words.new ≡ words_of (said_tally (tally_all source.now)) words.old }
{
    words::say_tally(words, dictionary::tally(source))
}

// Checks that each atom of a whole file is whole, known and in shortest form.
pub fn pot_check(source: &[u8], words: &mut [u64]) -> u64
    ensures value { result ≡ number_of (said_checked (check_all source.now)) words.old }
    ensures words_after { words.new ≡ words_of (said_checked (check_all source.now)) words.old }
{
    words::say_checked(words, shortest::check(source))
}

// Reads a signature under a way: the one place that calls the reader.
fn read_header_by(source: &[u8], place: usize, way: Way, words: &mut [u64]) -> u64
    ensures value { result ≡ number_of (said_version (version_read way source.now place)) words.old }
    ensures words_after { words.new ≡
        words_of (said_version (version_read way source.now place)) words.old }
{
    words::say_version(words, header::read_header_by(source, Place(place), way))
}

// Reads the signature by the way of the entry that names none, which is exact.
pub fn pot_read_header(source: &[u8], place: usize, words: &mut [u64]) -> u64
    ensures value { result ≡
        number_of (said_version (version_read unnamed_way source.now place)) words.old }
    ensures words_after { words.new ≡
        words_of (said_version (version_read unnamed_way source.now place)) words.old }
{
    read_header_by(source, place, Way::unnamed(), words)
}

// Reads the signature, with zeros for what is missing of it.
pub fn pot_read_header_filled(source: &[u8], place: usize, words: &mut [u64]) -> u64
    ensures value { result ≡ number_of (said_version (version_read Filled source.now place)) words.old }
    ensures words_after { words.new ≡
        words_of (said_version (version_read Filled source.now place)) words.old }
{
    read_header_by(source, place, Way::Filled, words)
}

// Reads the signature exactly.
pub fn pot_read_header_exact(source: &[u8], place: usize, words: &mut [u64]) -> u64
    ensures value { result ≡
        number_of (said_version (version_read ExactLent source.now place)) words.old }
    ensures words_after { words.new ≡
        words_of (said_version (version_read ExactLent source.now place)) words.old }
{
    read_header_by(source, place, Way::ExactLent, words)
}

// Writes the signature with a version.
pub fn pot_write_header(out: &mut [u8], version: u8, words: &mut [u64]) -> u64
    ensures value { result ≡
        number_of (said_written (written_answer (signature_bytes version) out.old)) words.old }
    ensures words_after { words.new ≡
        words_of (said_written (written_answer (signature_bytes version) out.old)) words.old }
    ensures out_after { out.new ≡
        unless_short words.old out.old
        (written_content (signature_bytes version) out.old) }
{
    let room = granted(words.len(), out.len());
    let answer = header::write_header(&mut out[0..room], version);
    words::say_written(words, answer)
}

// Writes None.
pub fn pot_write_none(out: &mut [u8], words: &mut [u64]) -> u64
    ensures value { result ≡
        number_of (said_written (written_answer (special_bytes None) out.old)) words.old }
    ensures words_after { words.new ≡
        words_of (said_written (written_answer (special_bytes None) out.old)) words.old }
    ensures out_after { out.new ≡
        unless_short words.old out.old (written_content (special_bytes None) out.old) }
{
    let room = granted(words.len(), out.len());
    let answer = writers::write_none(&mut out[0..room]);
    words::say_written(words, answer)
}

// Writes the unit.
pub fn pot_write_unit(out: &mut [u8], words: &mut [u64]) -> u64
    ensures value { result ≡
        number_of (said_written (written_answer (special_bytes Unit) out.old)) words.old }
    ensures words_after { words.new ≡
        words_of (said_written (written_answer (special_bytes Unit) out.old)) words.old }
    ensures out_after { out.new ≡
        unless_short words.old out.old (written_content (special_bytes Unit) out.old) }
{
    let room = granted(words.len(), out.len());
    let answer = writers::write_unit(&mut out[0..room]);
    words::say_written(words, answer)
}

// Writes the mark of a named value.
pub fn pot_write_named(out: &mut [u8], words: &mut [u64]) -> u64
    ensures value { result ≡
        number_of (said_written (written_answer (special_bytes Named) out.old)) words.old }
    ensures words_after { words.new ≡
        words_of (said_written (written_answer (special_bytes Named) out.old)) words.old }
    ensures out_after { out.new ≡
        unless_short words.old out.old (written_content (special_bytes Named) out.old) }
{
    let room = granted(words.len(), out.len());
    let answer = writers::write_named(&mut out[0..room]);
    words::say_written(words, answer)
}

// Writes an Int of at most 8 bits.
pub fn pot_write_i8(out: &mut [u8], value: i8, words: &mut [u64]) -> u64
    ensures value { result ≡
        number_of (said_written (written_answer (signed_bytes value) out.old)) words.old }
    ensures words_after { words.new ≡
        words_of (said_written (written_answer (signed_bytes value) out.old)) words.old }
    ensures out_after { out.new ≡
        unless_short words.old out.old (written_content (signed_bytes value) out.old) }
{
    let room = granted(words.len(), out.len());
    let answer = writers::write_i8(&mut out[0..room], value);
    words::say_written(words, answer)
}

// Writes a UInt of at most 8 bits.
pub fn pot_write_u8(out: &mut [u8], value: u8, words: &mut [u64]) -> u64
    ensures value { result ≡
        number_of (said_written (written_answer (unsigned_bytes value) out.old)) words.old }
    ensures words_after { words.new ≡
        words_of (said_written (written_answer (unsigned_bytes value) out.old)) words.old }
    ensures out_after { out.new ≡
        unless_short words.old out.old
        (written_content (unsigned_bytes value) out.old) }
{
    let room = granted(words.len(), out.len());
    let answer = writers::write_u8(&mut out[0..room], value);
    words::say_written(words, answer)
}

// Writes an Int of at most 16 bits.
pub fn pot_write_i16(out: &mut [u8], value: i16, words: &mut [u64]) -> u64
    ensures value { result ≡
        number_of (said_written (written_answer (signed_bytes value) out.old)) words.old }
    ensures words_after { words.new ≡
        words_of (said_written (written_answer (signed_bytes value) out.old)) words.old }
    ensures out_after { out.new ≡
        unless_short words.old out.old (written_content (signed_bytes value) out.old) }
{
    let room = granted(words.len(), out.len());
    let answer = writers::write_i16(&mut out[0..room], value);
    words::say_written(words, answer)
}

// Writes a UInt of at most 16 bits.
pub fn pot_write_u16(out: &mut [u8], value: u16, words: &mut [u64]) -> u64
    ensures value { result ≡
        number_of (said_written (written_answer (unsigned_bytes value) out.old)) words.old }
    ensures words_after { words.new ≡
        words_of (said_written (written_answer (unsigned_bytes value) out.old)) words.old }
    ensures out_after { out.new ≡
        unless_short words.old out.old
        (written_content (unsigned_bytes value) out.old) }
{
    let room = granted(words.len(), out.len());
    let answer = writers::write_u16(&mut out[0..room], value);
    words::say_written(words, answer)
}

// Writes an Int of at most 24 bits; refusal 8 of a value that so many bits do not hold.
pub fn pot_write_i24(out: &mut [u8], value: i32, words: &mut [u64]) -> u64
    ensures value { result ≡
        number_of (said_written (held_answer (holds_s 3 value) (signed_bytes value) out.old))
        words.old }
    ensures words_after { words.new ≡
        words_of (said_written (held_answer (holds_s 3 value) (signed_bytes value) out.old))
        words.old }
    ensures out_after { out.new ≡
        unless_short words.old out.old
        (held_content (holds_s 3 value) (signed_bytes value) out.old) }
{
    let room = granted(words.len(), out.len());
    let answer = writers::write_i24(&mut out[0..room], value);
    words::say_written(words, answer)
}

// Writes a UInt of at most 24 bits; refusal 8 of a value that so many bits do not hold.
pub fn pot_write_u24(out: &mut [u8], value: u32, words: &mut [u64]) -> u64
    ensures value { result ≡
        number_of (said_written (held_answer (holds_u 3 value) (unsigned_bytes value) out.old))
        words.old }
    ensures words_after { words.new ≡
        words_of (said_written (held_answer (holds_u 3 value) (unsigned_bytes value) out.old))
        words.old }
    ensures out_after { out.new ≡
        unless_short words.old out.old
        (held_content (holds_u 3 value) (unsigned_bytes value) out.old) }
{
    let room = granted(words.len(), out.len());
    let answer = writers::write_u24(&mut out[0..room], value);
    words::say_written(words, answer)
}

// Writes an Int of at most 32 bits.
pub fn pot_write_i32(out: &mut [u8], value: i32, words: &mut [u64]) -> u64
    ensures value { result ≡
        number_of (said_written (written_answer (signed_bytes value) out.old)) words.old }
    ensures words_after { words.new ≡
        words_of (said_written (written_answer (signed_bytes value) out.old)) words.old }
    ensures out_after { out.new ≡
        unless_short words.old out.old (written_content (signed_bytes value) out.old) }
{
    let room = granted(words.len(), out.len());
    let answer = writers::write_i32(&mut out[0..room], value);
    words::say_written(words, answer)
}

// Writes a UInt of at most 32 bits.
pub fn pot_write_u32(out: &mut [u8], value: u32, words: &mut [u64]) -> u64
    ensures value { result ≡
        number_of (said_written (written_answer (unsigned_bytes value) out.old)) words.old }
    ensures words_after { words.new ≡
        words_of (said_written (written_answer (unsigned_bytes value) out.old)) words.old }
    ensures out_after { out.new ≡
        unless_short words.old out.old
        (written_content (unsigned_bytes value) out.old) }
{
    let room = granted(words.len(), out.len());
    let answer = writers::write_u32(&mut out[0..room], value);
    words::say_written(words, answer)
}

// Writes an Int of at most 48 bits; refusal 8 of a value that so many bits do not hold.
pub fn pot_write_i48(out: &mut [u8], value: i64, words: &mut [u64]) -> u64
    ensures value { result ≡
        number_of (said_written (held_answer (holds_s 6 value) (signed_bytes value) out.old))
        words.old }
    ensures words_after { words.new ≡
        words_of (said_written (held_answer (holds_s 6 value) (signed_bytes value) out.old))
        words.old }
    ensures out_after { out.new ≡
        unless_short words.old out.old
        (held_content (holds_s 6 value) (signed_bytes value) out.old) }
{
    let room = granted(words.len(), out.len());
    let answer = writers::write_i48(&mut out[0..room], value);
    words::say_written(words, answer)
}

// Writes a UInt of at most 48 bits; refusal 8 of a value that so many bits do not hold.
pub fn pot_write_u48(out: &mut [u8], value: u64, words: &mut [u64]) -> u64
    ensures value { result ≡
        number_of (said_written (held_answer (holds_u 6 value) (unsigned_bytes value) out.old))
        words.old }
    ensures words_after { words.new ≡
        words_of (said_written (held_answer (holds_u 6 value) (unsigned_bytes value) out.old))
        words.old }
    ensures out_after { out.new ≡
        unless_short words.old out.old
        (held_content (holds_u 6 value) (unsigned_bytes value) out.old) }
{
    let room = granted(words.len(), out.len());
    let answer = writers::write_u48(&mut out[0..room], value);
    words::say_written(words, answer)
}

// Writes an Int of at most 64 bits.
pub fn pot_write_i64(out: &mut [u8], value: i64, words: &mut [u64]) -> u64
    ensures value { result ≡
        number_of (said_written (written_answer (signed_bytes value) out.old)) words.old }
    ensures words_after { words.new ≡
        words_of (said_written (written_answer (signed_bytes value) out.old)) words.old }
    ensures out_after { out.new ≡
        unless_short words.old out.old (written_content (signed_bytes value) out.old) }
{
    let room = granted(words.len(), out.len());
    let answer = writers::write_i64(&mut out[0..room], value);
    words::say_written(words, answer)
}

// Writes a UInt of at most 64 bits.
pub fn pot_write_u64(out: &mut [u8], value: u64, words: &mut [u64]) -> u64
    ensures value { result ≡
        number_of (said_written (written_answer (unsigned_bytes value) out.old)) words.old }
    ensures words_after { words.new ≡
        words_of (said_written (written_answer (unsigned_bytes value) out.old)) words.old }
    ensures out_after { out.new ≡
        unless_short words.old out.old
        (written_content (unsigned_bytes value) out.old) }
{
    let room = granted(words.len(), out.len());
    let answer = writers::write_u64(&mut out[0..room], value);
    words::say_written(words, answer)
}

// Writes an Int of at most 128 bits, whose value is two words in two's complement.
pub fn pot_write_i128(out: &mut [u8], low: u64, high: u64, words: &mut [u64]) -> u64
    ensures value { result ≡
        number_of (said_written (written_answer (signed_bytes (joined_signed (record { lo = low; hi = high })))
        out.old)) words.old }
    ensures words_after { words.new ≡
        words_of (said_written (written_answer (signed_bytes (joined_signed (record { lo = low; hi = high })))
        out.old)) words.old }
    ensures out_after { out.new ≡
        unless_short words.old out.old
        (written_content (signed_bytes (joined_signed (record { lo = low; hi = high }))) out.old) }
{
    let room = granted(words.len(), out.len());
    let answer = writers::write_i128(&mut out[0..room], Wide { lo: low, hi: high });
    words::say_written(words, answer)
}

// Writes a UInt of at most 128 bits, whose value is two words.
pub fn pot_write_u128(out: &mut [u8], low: u64, high: u64, words: &mut [u64]) -> u64
    ensures value { result ≡
        number_of (said_written (written_answer (unsigned_bytes (joined (record { lo = low; hi = high })))
        out.old)) words.old }
    ensures words_after { words.new ≡
        words_of (said_written (written_answer (unsigned_bytes (joined (record { lo = low; hi = high })))
        out.old)) words.old }
    ensures out_after { out.new ≡
        unless_short words.old out.old
        (written_content (unsigned_bytes (joined (record { lo = low; hi = high }))) out.old) }
{
    let room = granted(words.len(), out.len());
    let answer = writers::write_u128(&mut out[0..room], Wide { lo: low, hi: high });
    words::say_written(words, answer)
}

// Writes a string.
pub fn pot_write_bytes(out: &mut [u8], value: &[u8], words: &mut [u64]) -> u64
    ensures value { result ≡
        number_of (said_written (written_answer (bytes_bytes value.now) out.old))
        words.old }
    ensures words_after { words.new ≡
        words_of (said_written (written_answer (bytes_bytes value.now) out.old))
        words.old }
    ensures out_after { out.new ≡
        unless_short words.old out.old
        (written_content (bytes_bytes value.now) out.old) }
{
    let room = granted(words.len(), out.len());
    let answer = writers::write_bytes(&mut out[0..room], value);
    words::say_written(words, answer)
}

// Writes a float of 32 bits, given by its bits.
pub fn pot_write_f32(out: &mut [u8], bits: u32, words: &mut [u64]) -> u64
    ensures value { result ≡
        number_of (said_written (written_answer (f32_bytes bits) out.old)) words.old }
    ensures words_after { words.new ≡
        words_of (said_written (written_answer (f32_bytes bits) out.old)) words.old }
    ensures out_after { out.new ≡
        unless_short words.old out.old (written_content (f32_bytes bits) out.old) }
{
    let room = granted(words.len(), out.len());
    let answer = float::write_f32_bits(&mut out[0..room], bits);
    words::say_written(words, answer)
}

// Writes a float of 64 bits, given by its bits.
pub fn pot_write_f64(out: &mut [u8], bits: u64, words: &mut [u64]) -> u64
    ensures value { result ≡
        number_of (said_written (written_answer (f64_bytes bits) out.old)) words.old }
    ensures words_after { words.new ≡
        words_of (said_written (written_answer (f64_bytes bits) out.old)) words.old }
    ensures out_after { out.new ≡
        unless_short words.old out.old (written_content (f64_bytes bits) out.old) }
{
    let room = granted(words.len(), out.len());
    let answer = float::write_f64_bits(&mut out[0..room], bits);
    words::say_written(words, answer)
}

// Writes an atom header, of a kind given by its code.
pub fn pot_write_atom_header(out: &mut [u8], kind: u8, arg: u64, words: &mut [u64]) -> u64
    ensures value { result ≡
        number_of (said_written (of_kind (λ k. written_answer (header_bytes k arg) out.old) Err
        (kind_from kind))) words.old }
    ensures words_after { words.new ≡
        words_of (said_written (of_kind (λ k. written_answer (header_bytes k arg) out.old) Err
        (kind_from kind))) words.old }
    ensures out_after { out.new ≡
        unless_short words.old out.old
        (of_kind (λ k. written_content (header_bytes k arg) out.old) (λ r. out.old)
        (kind_from kind)) }
{
    let room = granted(words.len(), out.len());
    match Kind::from_u8(kind) {
        Ok(known) => {
            let answer = header::write_atom_header(&mut out[0..room], known, arg);
            return words::say_written(words, answer);
        }
        Err(refusal) => return words::say_refused(words, refusal),
    }
}

// Writes a special, given by its code.
pub fn pot_write_special(out: &mut [u8], special: u64, words: &mut [u64]) -> u64
    ensures value { result ≡
        number_of (said_written (of_special (λ k. written_answer (special_bytes k) out.old) Err
        (special_from special))) words.old }
    ensures words_after { words.new ≡
        words_of (said_written (of_special (λ k. written_answer (special_bytes k) out.old) Err
        (special_from special))) words.old }
    ensures out_after { out.new ≡
        unless_short words.old out.old
        (of_special (λ k. written_content (special_bytes k) out.old) (λ r. out.old)
        (special_from special)) }
{
    let room = granted(words.len(), out.len());
    match Special::try_from(special) {
        Ok(known) => {
            let answer = writers::write_special(&mut out[0..room], known);
            return words::say_written(words, answer);
        }
        Err(refusal) => return words::say_refused(words, refusal),
    }
}

// Writes an integer, given by its variant's number and its value's words.
pub fn pot_write_integer(
    out: &mut [u8],
    variant: u64,
    low: u64,
    high: u64,
    words: &mut [u64],
) -> u64
    ensures value { result ≡
        number_of (said_written (of_integer (λ k. written_answer (value_bytes k) out.old) Err
        (integer_of_words variant (record { lo = low; hi = high })))) words.old }
    ensures words_after { words.new ≡
        words_of (said_written (of_integer (λ k. written_answer (value_bytes k) out.old) Err
        (integer_of_words variant (record { lo = low; hi = high })))) words.old }
    ensures out_after { out.new ≡
        unless_short words.old out.old
        (of_integer (λ k. written_content (value_bytes k) out.old) (λ r. out.old)
        (integer_of_words variant (record { lo = low; hi = high }))) }
{
    let room = granted(words.len(), out.len());
    match recast::integer_from(variant, low, high) {
        Ok(known) => {
            let answer = writers::write_to(&mut out[0..room], known);
            return words::say_written(words, answer);
        }
        Err(refusal) => return words::say_refused(words, refusal),
    }
}

// Writes a boolean: false of 0, true of any other number.
pub fn pot_write_bool(out: &mut [u8], value: u8, words: &mut [u64]) -> u64
    ensures value { result ≡
        number_of (said_written (written_answer (special_bytes (truth (not (eqb value 0)))) out.old))
        words.old }
    ensures words_after { words.new ≡
        words_of (said_written (written_answer (special_bytes (truth (not (eqb value 0)))) out.old))
        words.old }
    ensures out_after { out.new ≡
        unless_short words.old out.old
        (written_content (special_bytes (truth (not (eqb value 0)))) out.old) }
{
    let room = granted(words.len(), out.len());
    let answer = writers::write_bool(&mut out[0..room], value != 0);
    words::say_written(words, answer)
}

// Casts an integer to the variant of a number.
pub fn pot_integer_cast(to: u64, variant: u64, low: u64, high: u64, words: &mut [u64]) -> u64
    ensures value { result ≡
        number_of (of_integer (λ x. said_cast (recast to x)) said_refused
        (integer_of_words variant (record { lo = low; hi = high }))) words.old }
    ensures words_after { words.new ≡
        words_of (of_integer (λ x. said_cast (recast to x)) said_refused
        (integer_of_words variant (record { lo = low; hi = high }))) words.old }
{
    match recast::integer_from(variant, low, high) {
        Ok(x) => return words::say_cast(words, recast::recast(to, x)),
        Err(refusal) => return words::say_refused(words, refusal),
    }
}

// Casts an integer to an f32.
pub fn pot_integer_as_f32(variant: u64, low: u64, high: u64, words: &mut [u64]) -> u64
    ensures value { result ≡
        number_of (of_integer (λ x. said_as_f32 (as_f32 x)) said_refused
        (integer_of_words variant (record { lo = low; hi = high }))) words.old }
    ensures words_after { words.new ≡
        words_of (of_integer (λ x. said_as_f32 (as_f32 x)) said_refused
        (integer_of_words variant (record { lo = low; hi = high }))) words.old }
{
    match recast::integer_from(variant, low, high) {
        Ok(x) => return words::say_as_f32(words, cast::as_f32(x)),
        Err(refusal) => return words::say_refused(words, refusal),
    }
}

// Casts an integer to an f64.
pub fn pot_integer_as_f64(variant: u64, low: u64, high: u64, words: &mut [u64]) -> u64
    ensures value { result ≡
        number_of (of_integer (λ x. said_as_f64 (as_f64 x)) said_refused
        (integer_of_words variant (record { lo = low; hi = high }))) words.old }
    ensures words_after { words.new ≡
        words_of (of_integer (λ x. said_as_f64 (as_f64 x)) said_refused
        (integer_of_words variant (record { lo = low; hi = high }))) words.old }
{
    match recast::integer_from(variant, low, high) {
        Ok(x) => return words::say_as_f64(words, cast::as_f64(x)),
        Err(refusal) => return words::say_refused(words, refusal),
    }
}

// Casts an f32 to an f64, a NaN too.
pub fn pot_f32_as_f64(bits: u32, words: &mut [u64]) -> u64
    ensures value { result ≡ number_of (said_word (widened single double bits)) words.old }
    ensures words_after { words.new ≡ words_of (said_word (widened single double bits)) words.old }
{
    words::say_word(words, binary::f32_to_f64_bits(bits))
}

// Casts an f64 to an f32 of an equal value.
pub fn pot_f64_as_f32(bits: u64, words: &mut [u64]) -> u64
    ensures value { result ≡ number_of (said_narrowed (narrowed double single bits)) words.old }
    ensures words_after { words.new ≡ words_of (said_narrowed (narrowed double single bits)) words.old }
{
    words::say_narrowed(words, bits)
}

// Casts an f32 to an integer.
pub fn pot_f32_as_integer(bits: u32, words: &mut [u64]) -> u64
    ensures value { result ≡ number_of (said_as_integer (as_integer (F32 (of_bits binary32 bits)))) words.old }
    ensures words_after { words.new ≡
        words_of (said_as_integer (as_integer (F32 (of_bits binary32 bits)))) words.old }
{
    let value = Float::F32(binary::f32_of_bits(bits));
    words::say_as_integer(words, float_cast::as_integer(value))
}

// Casts an f64 to an integer.
pub fn pot_f64_as_integer(bits: u64, words: &mut [u64]) -> u64
    ensures value { result ≡ number_of (said_as_integer (as_integer (F64 (of_bits binary64 bits)))) words.old }
    ensures words_after { words.new ≡
        words_of (said_as_integer (as_integer (F64 (of_bits binary64 bits)))) words.old }
{
    let value = Float::F64(binary::f64_of_bits(bits));
    words::say_as_integer(words, float_cast::as_integer(value))
}
