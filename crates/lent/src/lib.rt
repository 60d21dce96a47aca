// The lent output buffer: what every writer does to it. Document 01, "Refusals by number": "A writer starts at its
// buffer's first byte and touches only the bytes it counts in its answer."
#![tactic(auto)]

ghost use Rattle.std.specs.Prelude.{◌≡◌, [], ◌∷◌, ◌≤◌, ◌<◌, ◌+◌, length};
ghost use Rattle.lent.specs.Lent.{written_answer, written_content, copied_over};

use types::Refusal;

// Writes one byte.
pub fn put_one(out: &mut [u8], byte: u8) -> Result<usize, Refusal>
    ensures value { result ≡ written_answer (byte ∷ []) out.old }
    ensures out_after { out.new ≡ written_content (byte ∷ []) out.old }
{
    if out.len() < 1 {
        return Err(Refusal::no_room(1));
    }
    out[0] = byte;
    Ok(1)
}

// Copies a source that has its room, byte by byte. In `zip` or `copy_from_slice` its callers' two loops are not seen to
// be one copy, which takes up to twelve times as long.
fn copy_each(out: &mut [u8], source: &[u8])
    requires { length source.now ≤ length out.old }
    ensures { out.new ≡ copied_over source.now out.old }
{
    for (i, &byte) in source.iter().enumerate() {
        out[i] = byte;
    }
}

// Copies a source of at most 4,096 bytes that has its room, by way of a block of its own: nothing else lies over that,
// so the two loops are compiled to one call of the system's copy, or to plain moves where the length is known before.
fn copy_piece(out: &mut [u8], source: &[u8])
    requires source_len_bound { length source.now ≤ 4096 }
    requires source_in_bounds { length source.now ≤ length out.old }
    ensures { out.new ≡ copied_over source.now out.old }
{
    let mut block = [0u8; 4096];
    let size = source.len();
    copy_each(&mut block[0..size], source);
    copy_each(out, &block[0..size]);
}

// Copies a source of N bytes to twice as many that has its room: its first N, and its last over them.
fn copy_ends<const N: usize>(out: &mut [u8], source: &[u8])
    requires count_in_bounds { (N ≤ length source.now) × (length source.now ≤ N + N) × (N ≤ 4096) }
    requires source_in_bounds { length source.now ≤ length out.old }
    ensures { out.new ≡ copied_over source.now out.old }
{
    copy_piece(out, &source[0..N]);
    let from = source.len() - N;
    copy_piece(&mut out[from..], &source[from..]);
}

// Copies at most three bytes that have their room: the first, the middle one and the last, which may be the same.
fn copy_few(out: &mut [u8], source: &[u8])
    requires source_len_bound { length source.now < 4 }
    requires source_in_bounds { length source.now ≤ length out.old }
    ensures { out.new ≡ copied_over source.now out.old }
{
    let size = source.len();
    if size < 1 {
        return;
    }
    let middle = size / 2;
    let first = source[0];
    let second = source[middle];
    let third = source[size - 1];
    out[0] = first;
    out[middle] = second;
    out[size - 1] = third;
}

// Copies at most fifteen bytes that have their room, so that few branches hang on their count.
fn copy_short(out: &mut [u8], source: &[u8])
    requires source_len_bound { length source.now < 16 }
    requires source_in_bounds { length source.now ≤ length out.old }
    ensures { out.new ≡ copied_over source.now out.old }
{
    match source.len() {
        0..=3 => copy_few(out, source),
        4..=8 => copy_ends::<4>(out, source),
        _ => copy_ends::<8>(out, source),
    }
}

// Copies 16 to 64 bytes that have their room.
fn copy_middle(out: &mut [u8], source: &[u8])
    requires in_bounds { (16 ≤ length source.now) × (length source.now < 65) }
    requires source_in_bounds { length source.now ≤ length out.old }
    ensures { out.new ≡ copied_over source.now out.old }
{
    match source.len() {
        0..=32 => copy_ends::<16>(out, source),
        _ => copy_ends::<32>(out, source),
    }
}

// Copies a source of any length that has its room: as one piece, or else its halves. It calls itself, so that it stays
// out of line: a loop would be inlined and unrolled, at the cost of the short copies.
fn copy_halves(out: &mut [u8], source: &[u8])
    requires { length source.now ≤ length out.old }
    ensures { out.new ≡ copied_over source.now out.old }
{
    let size = source.len();
    if size <= 4096 {
        copy_piece(out, source);
        return;
    }
    let half = size / 2;
    copy_halves(out, &source[0..half]);
    copy_halves(&mut out[half..], &source[half..]);
}

// Copies a source that has its room: a helper of readers and writers, which judge the room of the whole first. The last
// call lends both anew, whole, so that they are laid on the stack for it there and not on every way.
pub fn copy_in(out: &mut [u8], source: &[u8])
    requires { length source.now ≤ length out.old }
    ensures { out.new ≡ copied_over source.now out.old }
{
    match source.len() {
        0..=15 => copy_short(out, source),
        16..=64 => copy_middle(out, source),
        65..=4096 => copy_piece(out, source),
        _ => copy_halves(&mut out[0..], &source[0..]),
    }
}

// Writes a list of bytes as it is.
pub fn put_all(out: &mut [u8], source: &[u8]) -> Result<usize, Refusal>
    ensures value { result ≡ written_answer source.now out.old }
    ensures out_after { out.new ≡ written_content source.now out.old }
{
    if out.len() < source.len() {
        return Err(Refusal::no_room(source.len()));
    }
    copy_in(out, source);
    Ok(source.len())
}
