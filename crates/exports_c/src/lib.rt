// What programs of other languages link with: each function of `exports` under its name, with the clauses that it has
// there. It stands apart since a crate is a library or a static library, and the promises are about the library.
#![tactic(auto)]

ghost use Rattle.std.specs.Prelude.{Err, ◌≡◌, not, [], eqb};
ghost use Rattle.std.specs.Float.{binary32, binary64};
ghost use Rattle.std.specs.Float.Ieee.{of_bits};
ghost use Rattle.types.specs.Kinds.{kind_from, special_from};
ghost use Rattle.types.specs.Ways.{unnamed_way};
ghost use Rattle.types.specs.declared.Way.TheVariants.{Filled, ExactLent, ExactCopied};
ghost use Rattle.types.specs.declared.Special.TheVariants.{None, Unit, Named};
ghost use Rattle.types.specs.declared.Float.TheVariants.{F32, F64};
ghost use Rattle.lent.specs.Lent.{written_answer, written_content};
ghost use Rattle.header.specs.Header.{header_bytes};
ghost use Rattle.header.specs.Signature.{version_read, signature_bytes};
ghost use Rattle.little.specs.Counts.{holds_s, holds_u};
ghost use Rattle.binary.specs.Formats.{single, double};
ghost use Rattle.binary.specs.Conversions.{widened, narrowed};
ghost use Rattle.types.specs.Values.{joined, joined_signed};
ghost use Rattle.cast.specs.Casts.{as_f32, as_f64};
ghost use Rattle.writers.specs.Bytes.{special_bytes, truth, signed_bytes, unsigned_bytes, value_bytes, bytes_bytes, held_answer, held_content};
ghost use Rattle.float.specs.Bytes.{f32_bytes, f64_bytes};
ghost use Rattle.float_cast.specs.Integral.{as_integer};
ghost use Rattle.atom.specs.Atoms.{atom_read, atom_scratch};
ghost use Rattle.dictionary.specs.Steps.{skipped};
ghost use Rattle.dictionary.specs.Runs.{run_all, tally_all};
ghost use Rattle.shortest.specs.Checks.{check_all};
ghost use Rattle.words.specs.Layout.{number_of, words_of, unless_short, said_atom, said_skipped, said_ran, said_tally, said_checked, said_version, said_written};
ghost use Rattle.words.specs.Layout.{said_refused, said_word, said_cast, said_as_integer, said_as_f32, said_as_f64, said_narrowed};
ghost use Rattle.recast.specs.Recasts.{recast, integer_of_words, of_integer};
ghost use Rattle.exports.specs.Named.{of_kind, of_special};

// Reads an atom by the way of the entry that names none, which is exact; a string is lent.
#[unsafe(no_mangle)]
pub extern "C" fn pot_read_atom(source: &[u8], place: usize, budget: u64, words: &mut [u64]) -> u64
    ensures value { result ≡
        number_of (said_atom (atom_read unnamed_way source.now place (record { 0 = budget }) []))
        words.old }
    ensures words_after { words.new ≡
        words_of (said_atom (atom_read unnamed_way source.now place (record { 0 = budget }) []))
        words.old }
{
    exports::pot_read_atom(source, place, budget, words)
}

// Reads an atom, with zeros for what is missing of a header or a number; a string is lent.
#[unsafe(no_mangle)]
pub extern "C" fn pot_read_atom_filled(
    source: &[u8],
    place: usize,
    budget: u64,
    words: &mut [u64],
) -> u64
    ensures value { result ≡
        number_of (said_atom (atom_read Filled source.now place (record { 0 = budget }) []))
        words.old }
    ensures words_after { words.new ≡
        words_of (said_atom (atom_read Filled source.now place (record { 0 = budget }) []))
        words.old }
{
    exports::pot_read_atom_filled(source, place, budget, words)
}

// Reads an atom exactly; a string is lent.
#[unsafe(no_mangle)]
pub extern "C" fn pot_read_atom_exact(
    source: &[u8],
    place: usize,
    budget: u64,
    words: &mut [u64],
) -> u64
    ensures value { result ≡
        number_of (said_atom (atom_read ExactLent source.now place (record { 0 = budget }) []))
        words.old }
    ensures words_after { words.new ≡
        words_of (said_atom (atom_read ExactLent source.now place (record { 0 = budget }) []))
        words.old }
{
    exports::pot_read_atom_exact(source, place, budget, words)
}

// Reads an atom exactly; a string is copied into scratch.
#[unsafe(no_mangle)]
pub extern "C" fn pot_read_atom_copied(
    source: &[u8],
    place: usize,
    budget: u64,
    scratch: &mut [u8],
    words: &mut [u64],
) -> u64
    ensures value { result ≡
        number_of (said_atom (atom_read ExactCopied source.now place (record { 0 = budget })
        scratch.old)) words.old }
    ensures words_after { words.new ≡
        words_of (said_atom (atom_read ExactCopied source.now place (record { 0 = budget })
        scratch.old)) words.old }
    ensures scratch_after { scratch.new ≡
        unless_short words.old scratch.old
        (atom_scratch ExactCopied source.now place (record { 0 = budget }) scratch.old) }
{
    exports::pot_read_atom_copied(source, place, budget, scratch, words)
}

// Reads an atom exactly and builds no value.
#[unsafe(no_mangle)]
pub extern "C" fn pot_skip_atom(source: &[u8], place: usize, budget: u64, words: &mut [u64]) -> u64
    ensures value { result ≡
        number_of (said_skipped (skipped source.now place (record { 0 = budget }))) words.old }
    ensures words_after { words.new ≡
        words_of (said_skipped (skipped source.now place (record { 0 = budget }))) words.old }
{
    exports::pot_skip_atom(source, place, budget, words)
}

// Reads the atoms of a whole file exactly.
#[unsafe(no_mangle)]
pub extern "C" fn pot_run(source: &[u8], budget: u64, words: &mut [u64]) -> u64
    ensures value { result ≡
        number_of (said_ran (run_all source.now (record { 0 = budget }))) words.old }
    ensures words_after { words.new ≡
        words_of (said_ran (run_all source.now (record { 0 = budget }))) words.old }
{
    exports::pot_run(source, budget, words)
}

// Counts the atoms of a whole file, their body bytes, charges and letters.
#[unsafe(no_mangle)]
pub extern "C" fn pot_tally(source: &[u8], words: &mut [u64]) -> u64
    ensures value { result ≡ number_of (said_tally (tally_all source.now)) words.old }
    ensures words_after { words.new ≡ words_of (said_tally (tally_all source.now)) words.old }
{
    exports::pot_tally(source, words)
}

// Checks that each atom of a whole file is whole, known and in shortest form.
#[unsafe(no_mangle)]
pub extern "C" fn pot_check(source: &[u8], words: &mut [u64]) -> u64
    ensures value { result ≡ number_of (said_checked (check_all source.now)) words.old }
    ensures words_after { words.new ≡ words_of (said_checked (check_all source.now)) words.old }
{
    exports::pot_check(source, words)
}

// Reads the signature by the way of the entry that names none, which is exact.
#[unsafe(no_mangle)]
pub extern "C" fn pot_read_header(source: &[u8], place: usize, words: &mut [u64]) -> u64
    ensures value { result ≡
        number_of (said_version (version_read unnamed_way source.now place)) words.old }
    ensures words_after { words.new ≡
        words_of (said_version (version_read unnamed_way source.now place)) words.old }
{
    exports::pot_read_header(source, place, words)
}

// Reads the signature, with zeros for what is missing of it.
#[unsafe(no_mangle)]
pub extern "C" fn pot_read_header_filled(source: &[u8], place: usize, words: &mut [u64]) -> u64
    ensures value { result ≡ number_of (said_version (version_read Filled source.now place)) words.old }
    ensures words_after { words.new ≡
        words_of (said_version (version_read Filled source.now place)) words.old }
{
    exports::pot_read_header_filled(source, place, words)
}

// Reads the signature exactly.
#[unsafe(no_mangle)]
pub extern "C" fn pot_read_header_exact(source: &[u8], place: usize, words: &mut [u64]) -> u64
    ensures value { result ≡
        number_of (said_version (version_read ExactLent source.now place)) words.old }
    ensures words_after { words.new ≡
        words_of (said_version (version_read ExactLent source.now place)) words.old }
{
    exports::pot_read_header_exact(source, place, words)
}

// Writes the signature with a version.
#[unsafe(no_mangle)]
pub extern "C" fn pot_write_header(out: &mut [u8], version: u8, words: &mut [u64]) -> u64
    ensures value { result ≡
        number_of (said_written (written_answer (signature_bytes version) out.old)) words.old }
    ensures words_after { words.new ≡
        words_of (said_written (written_answer (signature_bytes version) out.old)) words.old }
    ensures out_after { out.new ≡
        unless_short words.old out.old
        (written_content (signature_bytes version) out.old) }
{
    exports::pot_write_header(out, version, words)
}

// Writes None.
#[unsafe(no_mangle)]
pub extern "C" fn pot_write_none(out: &mut [u8], words: &mut [u64]) -> u64
    ensures value { result ≡
        number_of (said_written (written_answer (special_bytes None) out.old)) words.old }
    ensures words_after { words.new ≡
        words_of (said_written (written_answer (special_bytes None) out.old)) words.old }
    ensures out_after { out.new ≡
        unless_short words.old out.old (written_content (special_bytes None) out.old) }
{
    exports::pot_write_none(out, words)
}

// Writes the unit.
#[unsafe(no_mangle)]
pub extern "C" fn pot_write_unit(out: &mut [u8], words: &mut [u64]) -> u64
    ensures value { result ≡
        number_of (said_written (written_answer (special_bytes Unit) out.old)) words.old }
    ensures words_after { words.new ≡
        words_of (said_written (written_answer (special_bytes Unit) out.old)) words.old }
    ensures out_after { out.new ≡
        unless_short words.old out.old (written_content (special_bytes Unit) out.old) }
{
    exports::pot_write_unit(out, words)
}

// Writes the mark of a named value.
#[unsafe(no_mangle)]
pub extern "C" fn pot_write_named(out: &mut [u8], words: &mut [u64]) -> u64
    ensures value { result ≡
        number_of (said_written (written_answer (special_bytes Named) out.old)) words.old }
    ensures words_after { words.new ≡
        words_of (said_written (written_answer (special_bytes Named) out.old)) words.old }
    ensures out_after { out.new ≡
        unless_short words.old out.old (written_content (special_bytes Named) out.old) }
{
    exports::pot_write_named(out, words)
}

// Writes an Int of at most 8 bits.
#[unsafe(no_mangle)]
pub extern "C" fn pot_write_i8(out: &mut [u8], value: i8, words: &mut [u64]) -> u64
    ensures value { result ≡
        number_of (said_written (written_answer (signed_bytes value) out.old)) words.old }
    ensures words_after { words.new ≡
        words_of (said_written (written_answer (signed_bytes value) out.old)) words.old }
    ensures out_after { out.new ≡
        unless_short words.old out.old (written_content (signed_bytes value) out.old) }
{
    exports::pot_write_i8(out, value, words)
}

// Writes a UInt of at most 8 bits.
#[unsafe(no_mangle)]
pub extern "C" fn pot_write_u8(out: &mut [u8], value: u8, words: &mut [u64]) -> u64
    ensures value { result ≡
        number_of (said_written (written_answer (unsigned_bytes value) out.old)) words.old }
    ensures words_after { words.new ≡
        words_of (said_written (written_answer (unsigned_bytes value) out.old)) words.old }
    ensures out_after { out.new ≡
        unless_short words.old out.old
        (written_content (unsigned_bytes value) out.old) }
{
    exports::pot_write_u8(out, value, words)
}

// Writes an Int of at most 16 bits.
#[unsafe(no_mangle)]
pub extern "C" fn pot_write_i16(out: &mut [u8], value: i16, words: &mut [u64]) -> u64
    ensures value { result ≡
        number_of (said_written (written_answer (signed_bytes value) out.old)) words.old }
    ensures words_after { words.new ≡
        words_of (said_written (written_answer (signed_bytes value) out.old)) words.old }
    ensures out_after { out.new ≡
        unless_short words.old out.old (written_content (signed_bytes value) out.old) }
{
    exports::pot_write_i16(out, value, words)
}

// Writes a UInt of at most 16 bits.
#[unsafe(no_mangle)]
pub extern "C" fn pot_write_u16(out: &mut [u8], value: u16, words: &mut [u64]) -> u64
    ensures value { result ≡
        number_of (said_written (written_answer (unsigned_bytes value) out.old)) words.old }
    ensures words_after { words.new ≡
        words_of (said_written (written_answer (unsigned_bytes value) out.old)) words.old }
    ensures out_after { out.new ≡
        unless_short words.old out.old
        (written_content (unsigned_bytes value) out.old) }
{
    exports::pot_write_u16(out, value, words)
}

// Writes an Int of at most 24 bits; refusal 8 of a value that so many bits do not hold.
#[unsafe(no_mangle)]
pub extern "C" fn pot_write_i24(out: &mut [u8], value: i32, words: &mut [u64]) -> u64
    ensures value { result ≡
        number_of (said_written (held_answer (holds_s 3 value) (signed_bytes value) out.old))
        words.old }
    ensures words_after { words.new ≡
        words_of (said_written (held_answer (holds_s 3 value) (signed_bytes value) out.old))
        words.old }
    ensures out_after { out.new ≡
        unless_short words.old out.old
        (held_content (holds_s 3 value) (signed_bytes value) out.old) }
{
    exports::pot_write_i24(out, value, words)
}

// Writes a UInt of at most 24 bits; refusal 8 of a value that so many bits do not hold.
#[unsafe(no_mangle)]
pub extern "C" fn pot_write_u24(out: &mut [u8], value: u32, words: &mut [u64]) -> u64
    ensures value { result ≡
        number_of (said_written (held_answer (holds_u 3 value) (unsigned_bytes value) out.old))
        words.old }
    ensures words_after { words.new ≡
        words_of (said_written (held_answer (holds_u 3 value) (unsigned_bytes value) out.old))
        words.old }
    ensures out_after { out.new ≡
        unless_short words.old out.old
        (held_content (holds_u 3 value) (unsigned_bytes value) out.old) }
{
    exports::pot_write_u24(out, value, words)
}

// Writes an Int of at most 32 bits.
#[unsafe(no_mangle)]
pub extern "C" fn pot_write_i32(out: &mut [u8], value: i32, words: &mut [u64]) -> u64
    ensures value { result ≡
        number_of (said_written (written_answer (signed_bytes value) out.old)) words.old }
    ensures words_after { words.new ≡
        words_of (said_written (written_answer (signed_bytes value) out.old)) words.old }
    ensures out_after { out.new ≡
        unless_short words.old out.old (written_content (signed_bytes value) out.old) }
{
    exports::pot_write_i32(out, value, words)
}

// Writes a UInt of at most 32 bits.
#[unsafe(no_mangle)]
pub extern "C" fn pot_write_u32(out: &mut [u8], value: u32, words: &mut [u64]) -> u64
    ensures value { result ≡
        number_of (said_written (written_answer (unsigned_bytes value) out.old)) words.old }
    ensures words_after { words.new ≡
        words_of (said_written (written_answer (unsigned_bytes value) out.old)) words.old }
    ensures out_after { out.new ≡
        unless_short words.old out.old
        (written_content (unsigned_bytes value) out.old) }
{
    exports::pot_write_u32(out, value, words)
}

// Writes an Int of at most 48 bits; refusal 8 of a value that so many bits do not hold.
#[unsafe(no_mangle)]
pub extern "C" fn pot_write_i48(out: &mut [u8], value: i64, words: &mut [u64]) -> u64
    ensures value { result ≡
        number_of (said_written (held_answer (holds_s 6 value) (signed_bytes value) out.old))
        words.old }
    ensures words_after { words.new ≡
        words_of (said_written (held_answer (holds_s 6 value) (signed_bytes value) out.old))
        words.old }
    ensures out_after { out.new ≡
        unless_short words.old out.old
        (held_content (holds_s 6 value) (signed_bytes value) out.old) }
{
    exports::pot_write_i48(out, value, words)
}

// Writes a UInt of at most 48 bits; refusal 8 of a value that so many bits do not hold.
#[unsafe(no_mangle)]
pub extern "C" fn pot_write_u48(out: &mut [u8], value: u64, words: &mut [u64]) -> u64
    ensures value { result ≡
        number_of (said_written (held_answer (holds_u 6 value) (unsigned_bytes value) out.old))
        words.old }
    ensures words_after { words.new ≡
        words_of (said_written (held_answer (holds_u 6 value) (unsigned_bytes value) out.old))
        words.old }
    ensures out_after { out.new ≡
        unless_short words.old out.old
        (held_content (holds_u 6 value) (unsigned_bytes value) out.old) }
{
    exports::pot_write_u48(out, value, words)
}

// Writes an Int of at most 64 bits.
#[unsafe(no_mangle)]
pub extern "C" fn pot_write_i64(out: &mut [u8], value: i64, words: &mut [u64]) -> u64
    ensures value { result ≡
        number_of (said_written (written_answer (signed_bytes value) out.old)) words.old }
    ensures words_after { words.new ≡
        words_of (said_written (written_answer (signed_bytes value) out.old)) words.old }
    ensures out_after { out.new ≡
        unless_short words.old out.old (written_content (signed_bytes value) out.old) }
{
    exports::pot_write_i64(out, value, words)
}

// Writes a UInt of at most 64 bits.
#[unsafe(no_mangle)]
pub extern "C" fn pot_write_u64(out: &mut [u8], value: u64, words: &mut [u64]) -> u64
    ensures value { result ≡
        number_of (said_written (written_answer (unsigned_bytes value) out.old)) words.old }
    ensures words_after { words.new ≡
        words_of (said_written (written_answer (unsigned_bytes value) out.old)) words.old }
    ensures out_after { out.new ≡
        unless_short words.old out.old
        (written_content (unsigned_bytes value) out.old) }
{
    exports::pot_write_u64(out, value, words)
}

// Writes an Int of at most 128 bits, whose value is two words in two's complement.
#[unsafe(no_mangle)]
pub extern "C" fn pot_write_i128(out: &mut [u8], low: u64, high: u64, words: &mut [u64]) -> u64
    ensures value { result ≡
        number_of (said_written (written_answer (signed_bytes (joined_signed (record { lo = low; hi = high })))
        out.old)) words.old }
    ensures words_after { words.new ≡
        words_of (said_written (written_answer (signed_bytes (joined_signed (record { lo = low; hi = high })))
        out.old)) words.old }
    ensures out_after { out.new ≡
        unless_short words.old out.old
        (written_content (signed_bytes (joined_signed (record { lo = low; hi = high }))) out.old) }
{
    exports::pot_write_i128(out, low, high, words)
}

// Writes a UInt of at most 128 bits, whose value is two words.
#[unsafe(no_mangle)]
pub extern "C" fn pot_write_u128(out: &mut [u8], low: u64, high: u64, words: &mut [u64]) -> u64
    ensures value { result ≡
        number_of (said_written (written_answer (unsigned_bytes (joined (record { lo = low; hi = high })))
        out.old)) words.old }
    ensures words_after { words.new ≡
        words_of (said_written (written_answer (unsigned_bytes (joined (record { lo = low; hi = high })))
        out.old)) words.old }
    ensures out_after { out.new ≡
        unless_short words.old out.old
        (written_content (unsigned_bytes (joined (record { lo = low; hi = high }))) out.old) }
{
    exports::pot_write_u128(out, low, high, words)
}

// Writes a string.
#[unsafe(no_mangle)]
pub extern "C" fn pot_write_bytes(out: &mut [u8], value: &[u8], words: &mut [u64]) -> u64
    ensures value { result ≡
        number_of (said_written (written_answer (bytes_bytes value.now) out.old))
        words.old }
    ensures words_after { words.new ≡
        words_of (said_written (written_answer (bytes_bytes value.now) out.old))
        words.old }
    ensures out_after { out.new ≡
        unless_short words.old out.old
        (written_content (bytes_bytes value.now) out.old) }
{
    exports::pot_write_bytes(out, value, words)
}

// Writes a float of 32 bits, given by its bits.
#[unsafe(no_mangle)]
pub extern "C" fn pot_write_f32(out: &mut [u8], bits: u32, words: &mut [u64]) -> u64
    ensures value { result ≡
        number_of (said_written (written_answer (f32_bytes bits) out.old)) words.old }
    ensures words_after { words.new ≡
        words_of (said_written (written_answer (f32_bytes bits) out.old)) words.old }
    ensures out_after { out.new ≡
        unless_short words.old out.old (written_content (f32_bytes bits) out.old) }
{
    exports::pot_write_f32(out, bits, words)
}

// Writes a float of 64 bits, given by its bits.
#[unsafe(no_mangle)]
pub extern "C" fn pot_write_f64(out: &mut [u8], bits: u64, words: &mut [u64]) -> u64
    ensures value { result ≡
        number_of (said_written (written_answer (f64_bytes bits) out.old)) words.old }
    ensures words_after { words.new ≡
        words_of (said_written (written_answer (f64_bytes bits) out.old)) words.old }
    ensures out_after { out.new ≡
        unless_short words.old out.old (written_content (f64_bytes bits) out.old) }
{
    exports::pot_write_f64(out, bits, words)
}

// Writes an atom header, of a kind given by its code.
#[unsafe(no_mangle)]
pub extern "C" fn pot_write_atom_header(
    out: &mut [u8],
    kind: u8,
    arg: u64,
    words: &mut [u64],
) -> u64
    ensures value { result ≡
        number_of (said_written (of_kind (λ k. written_answer (header_bytes k arg) out.old) Err
        (kind_from kind))) words.old }
    ensures words_after { words.new ≡
        words_of (said_written (of_kind (λ k. written_answer (header_bytes k arg) out.old) Err
        (kind_from kind))) words.old }
    ensures out_after { out.new ≡
        unless_short words.old out.old
        (of_kind (λ k. written_content (header_bytes k arg) out.old) (λ r. out.old)
        (kind_from kind)) }
{
    exports::pot_write_atom_header(out, kind, arg, words)
}

// Writes a special, given by its code.
#[unsafe(no_mangle)]
pub extern "C" fn pot_write_special(out: &mut [u8], special: u64, words: &mut [u64]) -> u64
    ensures value { result ≡
        number_of (said_written (of_special (λ k. written_answer (special_bytes k) out.old) Err
        (special_from special))) words.old }
    ensures words_after { words.new ≡
        words_of (said_written (of_special (λ k. written_answer (special_bytes k) out.old) Err
        (special_from special))) words.old }
    ensures out_after { out.new ≡
        unless_short words.old out.old
        (of_special (λ k. written_content (special_bytes k) out.old) (λ r. out.old)
        (special_from special)) }
{
    exports::pot_write_special(out, special, words)
}

// Writes an integer, given by its variant's number and its value's words.
#[unsafe(no_mangle)]
pub extern "C" fn pot_write_integer(
    out: &mut [u8],
    variant: u64,
    low: u64,
    high: u64,
    words: &mut [u64],
) -> u64
    ensures value { result ≡
        number_of (said_written (of_integer (λ k. written_answer (value_bytes k) out.old) Err
        (integer_of_words variant (record { lo = low; hi = high })))) words.old }
    ensures words_after { words.new ≡
        words_of (said_written (of_integer (λ k. written_answer (value_bytes k) out.old) Err
        (integer_of_words variant (record { lo = low; hi = high })))) words.old }
    ensures out_after { out.new ≡
        unless_short words.old out.old
        (of_integer (λ k. written_content (value_bytes k) out.old) (λ r. out.old)
        (integer_of_words variant (record { lo = low; hi = high }))) }
{
    exports::pot_write_integer(out, variant, low, high, words)
}

// Writes a boolean: false of 0, true of any other number.
#[unsafe(no_mangle)]
pub extern "C" fn pot_write_bool(out: &mut [u8], value: u8, words: &mut [u64]) -> u64
    ensures value { result ≡
        number_of (said_written (written_answer (special_bytes (truth (not (eqb value 0)))) out.old))
        words.old }
    ensures words_after { words.new ≡
        words_of (said_written (written_answer (special_bytes (truth (not (eqb value 0)))) out.old))
        words.old }
    ensures out_after { out.new ≡
        unless_short words.old out.old
        (written_content (special_bytes (truth (not (eqb value 0)))) out.old) }
{
    exports::pot_write_bool(out, value, words)
}

// Casts an integer to the variant of a number.
#[unsafe(no_mangle)]
pub extern "C" fn pot_integer_cast(
    to: u64,
    variant: u64,
    low: u64,
    high: u64,
    words: &mut [u64],
) -> u64
    ensures value { result ≡
        number_of (of_integer (λ x. said_cast (recast to x)) said_refused
        (integer_of_words variant (record { lo = low; hi = high }))) words.old }
    ensures words_after { words.new ≡
        words_of (of_integer (λ x. said_cast (recast to x)) said_refused
        (integer_of_words variant (record { lo = low; hi = high }))) words.old }
{
    exports::pot_integer_cast(to, variant, low, high, words)
}

// Casts an integer to an f32.
#[unsafe(no_mangle)]
pub extern "C" fn pot_integer_as_f32(variant: u64, low: u64, high: u64, words: &mut [u64]) -> u64
    ensures value { result ≡
        number_of (of_integer (λ x. said_as_f32 (as_f32 x)) said_refused
        (integer_of_words variant (record { lo = low; hi = high }))) words.old }
    ensures words_after { words.new ≡
        words_of (of_integer (λ x. said_as_f32 (as_f32 x)) said_refused
        (integer_of_words variant (record { lo = low; hi = high }))) words.old }
{
    exports::pot_integer_as_f32(variant, low, high, words)
}

// Casts an integer to an f64.
#[unsafe(no_mangle)]
pub extern "C" fn pot_integer_as_f64(variant: u64, low: u64, high: u64, words: &mut [u64]) -> u64
    ensures value { result ≡
        number_of (of_integer (λ x. said_as_f64 (as_f64 x)) said_refused
        (integer_of_words variant (record { lo = low; hi = high }))) words.old }
    ensures words_after { words.new ≡
        words_of (of_integer (λ x. said_as_f64 (as_f64 x)) said_refused
        (integer_of_words variant (record { lo = low; hi = high }))) words.old }
{
    exports::pot_integer_as_f64(variant, low, high, words)
}

// Casts an f32 to an f64, a NaN too.
#[unsafe(no_mangle)]
pub extern "C" fn pot_f32_as_f64(bits: u32, words: &mut [u64]) -> u64
    ensures value { result ≡ number_of (said_word (widened single double bits)) words.old }
    ensures words_after { words.new ≡ words_of (said_word (widened single double bits)) words.old }
{
    exports::pot_f32_as_f64(bits, words)
}

// Casts an f64 to an f32 of an equal value.
#[unsafe(no_mangle)]
pub extern "C" fn pot_f64_as_f32(bits: u64, words: &mut [u64]) -> u64
    ensures value { result ≡ number_of (said_narrowed (narrowed double single bits)) words.old }
    ensures words_after { words.new ≡ words_of (said_narrowed (narrowed double single bits)) words.old }
{
    exports::pot_f64_as_f32(bits, words)
}

// Casts an f32 to an integer.
#[unsafe(no_mangle)]
pub extern "C" fn pot_f32_as_integer(bits: u32, words: &mut [u64]) -> u64
    ensures value { result ≡ number_of (said_as_integer (as_integer (F32 (of_bits binary32 bits)))) words.old }
    ensures words_after { words.new ≡
        words_of (said_as_integer (as_integer (F32 (of_bits binary32 bits)))) words.old }
{
    exports::pot_f32_as_integer(bits, words)
}

// Casts an f64 to an integer.
#[unsafe(no_mangle)]
pub extern "C" fn pot_f64_as_integer(bits: u64, words: &mut [u64]) -> u64
    ensures value { result ≡ number_of (said_as_integer (as_integer (F64 (of_bits binary64 bits)))) words.old }
    ensures words_after { words.new ≡
        words_of (said_as_integer (as_integer (F64 (of_bits binary64 bits)))) words.old }
{
    exports::pot_f64_as_integer(bits, words)
}
