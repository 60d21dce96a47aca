// The letters of a string. Document 01, "Tally", by document 02, K2: a byte outside 0x80 to 0xBF is a letter, but for
// the first byte of a pair that is a combining mark.
#![tactic(auto)]

ghost use Rattle.std.specs.Prelude.{◌≡◌, ◌≤◌, ◌<◌, ◌+◌, length, drop};
ghost use Rattle.letters.specs.Letters.{between, letter, mark, letters};
ghost use Rattle.letters.specs.Joins.{lead};
ghost use Rattle.letters.specs.Parts.{one, AtMost};

// The letters of a part, as far as its bytes alone tell them, and how many of its bytes may begin a mark.
#[derive(Clone, Copy)]
struct Part {
    letters: u8,
    leads: u8,
}

// 1 for a byte outside 0x80 to 0xBF, else 0: a choice without a branch, so that a loop over it takes many bytes at a
// time.
fn letter_of(byte: u8) -> u8
    ensures { (result ≡ letter byte) × (result ≤ 1) }
{
    match byte {
        0x80..=0xBF => 0,
        _ => 1,
    }
}

// 1 for a byte that a mark may begin with, else 0.
fn lead_of(byte: u8) -> u8
    ensures { (result ≡ one (lead byte)) × (result ≤ 1) }
{
    match byte {
        0xCC | 0xCD => 1,
        _ => 0,
    }
}

// 1 for a byte from 0x80 to `last`, else 0.
fn is_within(byte: u8, last: u8) -> u8
    ensures { result ≡ one (between 0x80 byte last) }
{
    if 0x80 <= byte && byte <= last { 1 } else { 0 }
}

// 1 for a pair of bytes that is a mark, else 0.
fn mark_of(byte: u8, next: u8) -> u8
    ensures { result ≡ one (mark byte next) }
{
    match byte {
        0xCC => is_within(next, 0xBF),
        0xCD => is_within(next, 0xAF),
        _ => 0,
    }
}

// Where the part from `i` on ends: after 192 bytes, so that a byte can count them, or at the end.
fn part_end(length: usize, i: usize) -> usize
    requires { i < length }
    ensures { (i < result) × (result ≤ length) × (result ≤ i + 192) }
{
    i + (length - i).min(192)
}

// The letters from one place to another, which are right where no mark begins there. A loop over the part's own slice
// takes up to two fifths longer on short strings.
fn letters_in_part(string: &[u8], from: usize, to: usize) -> Part
    requires { (from ≤ to) × (to ≤ length string.now) × (to ≤ from + 192) }
    ensures { (result.leads ≡ 0 →
        result.letters + letters (drop to string.now) ≡ letters (drop from string.now)) ×
        (result.letters + from ≤ to) }
{
    let mut letters: u8 = 0;
    let mut leads: u8 = 0;
    for i in from..to {
        letters += letter_of(string[i]);
        leads += lead_of(string[i]);
    }
    Part { letters, leads }
}

// The letters from one place to another, the byte after each looked at.
fn letters_by_pairs(string: &[u8], from: usize, to: usize) -> u8
    requires { (from ≤ to) × (to < length string.now) × (to ≤ from + 192) }
    ensures { (result + letters (drop to string.now) ≡ letters (drop from string.now)) × (result + from ≤ to) }
{
    let mut letters: u8 = 0;
    for i in from..to {
        letters += letter_of(string[i]) - mark_of(string[i], string[i + 1]);
    }
    letters
}

// The letters from a place on, of a string where marks may begin: its last byte has none after it. Neither this nor
// `count_letters` goes by `chunks`, which is no plainer: a part has to show the byte after it, and where it begins.
fn count_by_pairs(string: &[u8], from: usize) -> u64
    requires { from < length string.now }
    ensures { (result ≡ letters (drop from string.now)) × (result + from ≤ length string.now) }
{
    let last = string.len() - 1;
    let mut count: u64 = 0;
    let mut i = from;
    while i < last {
        let end = part_end(last, i);
        count += letters_by_pairs(string, i, end) as u64;
        i = end;
    }
    count + letter_of(string[last]) as u64
}

// The letters of a string, part by part; pair by pair from the first part on in which a mark may begin.
pub fn count_letters(string: &[u8]) -> u64
    ensures { (result ≡ letters string.now) × (result ≤ length string.now) }
{
    let mut count: u64 = 0;
    let mut i: usize = 0;
    while i < string.len() {
        let end = part_end(string.len(), i);
        let part = letters_in_part(string, i, end);
        if 0 < part.leads {
            return count + count_by_pairs(string, i);
        }
        count += part.letters as u64;
        i = end;
    }
    count
}

// The largest of four bytes. Of this and the two below their callers ask just that no byte is larger.
fn largest_of_4(string: &[u8], at: usize) -> u8
    requires { at + 4 ≤ length string.now }
    ensures { AtMost result string.now at (at + 4) }
{
    string[at]
        .max(string[at + 1])
        .max(string[at + 2].max(string[at + 3]))
}

// The largest of eight.
fn largest_of_8(string: &[u8], at: usize) -> u8
    requires { at + 8 ≤ length string.now }
    ensures { AtMost result string.now at (at + 8) }
{
    largest_of_4(string, at).max(largest_of_4(string, at + 4))
}

// The largest byte of a short string, by the same steps for many lengths: a loop's end would not be foreseen, and a
// `match` of the length takes two fifths longer.
fn largest_of_few(string: &[u8]) -> u8
    requires { length string.now ≤ 16 }
    ensures { AtMost result string.now 0 (length string.now) }
{
    let length = string.len();
    if 7 < length {
        largest_of_8(string, 0).max(largest_of_8(string, length - 8))
    } else if 3 < length {
        largest_of_4(string, 0).max(largest_of_4(string, length - 4))
    } else if 0 < length {
        string[0].max(string[length / 2]).max(string[length - 1])
    } else {
        0
    }
}

// The letters of a string that is likely a word: a short one of ASCII alone has as many as bytes.
pub fn count_word(string: &[u8]) -> u64
    ensures { (result ≡ letters string.now) × (result ≤ length string.now) }
{
    if string.len() <= 16 && largest_of_few(string) < 0x80 {
        string.len() as u64
    } else {
        count_letters(string)
    }
}
