// Runs `reader::as_slice`, and the read of an atom that names no way, beside filled reading and exact reading that
// copies, which are named. Each line written is the part that a mark says, in brackets, or an atom's three places, or a
// refusal's number with the place and the budget after it. What the program is held to was worked out from the
// documents' text apart from it. Document 01: "`as_slice` hands back a part of the source or of the scratch, as the
// delivery mark says; a mark reaching past the slice it names gives the empty part at that slice's end", "a header byte
// or number byte past the end reads as zero and the place stops at the end", and of refusal 4 "end of slice; charged if
// a body was being read". K1: "its first place, the place where its body starts and the place after it". K4: "The entry
// that names no way now reads exactly, strings lent".
#![tactic(auto)]

use std::io::{self, Write};
use types::{Atom, AtomAnswer, Budget, Mark, Nucleus, Place, Places, Way};

// Writes a part.
fn put_part(out: &mut impl Write, part: &[u8]) -> io::Result<()> {
    out.write_all(b"[")?;
    out.write_all(part)?;
    out.write_all(b"]\n")
}

// Writes the part of a mark made by hand, once of the source and once of the scratch.
fn put_both<'a>(
    out: &mut impl Write,
    source: &'a [u8],
    scratch: &'a [u8],
    start: usize,
    len: usize,
) -> io::Result<()> {
    for lent in [true, false] {
        let mark = Mark { start, len, lent };
        put_part(out, reader::as_slice(source, scratch, mark))?;
    }
    Ok(())
}

// Writes an atom's places, and the string that it is, or that it is none.
fn put_atom<'a>(
    out: &mut impl Write,
    source: &'a [u8],
    scratch: &'a [u8],
    atom: Atom,
) -> io::Result<()> {
    let Places { first, body, after } = atom.places;
    writeln!(out, "{} {} {}", first.0, body.0, after.0)?;
    let Nucleus::Bytes(mark) = atom.nucleus else {
        return out.write_all(b"no string\n");
    };
    put_part(out, reader::as_slice(source, scratch, mark))
}

// Writes the atom of an answer, or its refusal.
fn put_answer<'a>(
    out: &mut impl Write,
    source: &'a [u8],
    scratch: &'a [u8],
    answer: AtomAnswer,
) -> io::Result<()> {
    match answer {
        Ok((_, _, atom)) => put_atom(out, source, scratch, atom),
        Err((place, budget, refusal)) => {
            writeln!(out, "refused {} {} {}", refusal.number(), place.0, budget.0)
        }
    }
}

// Reads the atom at a place by the entry that names no way, filled, and copied into a scratch, which is written too. Of
// the string all is there; then come a sequence, a number without its last byte, and the end.
fn put_read(out: &mut impl Write, place: usize) -> io::Result<()> {
    let source = b"\xE3abc\x83\x41\x2C";
    let mut scratch = [0x2Du8; 8];
    let answer = atom::read_atom(source, Place(place), Budget(8));
    put_answer(out, source, &scratch, answer)?;
    for way in [Way::Filled, Way::ExactCopied] {
        let named = atom::read_atom_by(source, Place(place), Budget(8), &mut scratch, way);
        put_answer(out, source, &scratch, named)?;
    }
    put_part(out, &scratch)
}

fn main(rt: HostRuntime) -> io::Result<()> {
    let out = &mut rt.stdout();
    let source = b"the source";
    let scratch = b"a scratch";
    let marks = [
        (0, 3),
        (4, 5),
        (4, 6),
        (9, 0),
        (10, 0),
        (11, 0),
        (usize::MAX, 2),
    ];
    for (start, len) in marks {
        put_both(out, source, scratch, start, len)?;
    }
    for place in [0, 4, 5, 7] {
        put_read(out, place)?;
    }
    Ok(())
}
