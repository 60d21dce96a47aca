// The fields of a request: words, and strings of bytes.
ghost use Rattle.std.specs.Prelude.{◌+◌, ◌<◌, ◌≤◌, length};

// Where reading stands in a line, and whether every field so far was one.
#[derive(Clone, Copy)]
pub struct Cursor {
    pub at: usize,
    pub good: bool,
}

// A word, and where the next field starts.
#[derive(Clone, Copy)]
pub struct Word {
    pub cursor: Cursor,
    pub value: u64,
}

// A string of bytes that was put into the first bytes of a buffer.
#[derive(Clone, Copy)]
pub struct Decoded {
    pub cursor: Cursor,
    pub count: usize,
}

// The value of a digit in lower-case hex, and 16 of any other byte.
fn digit(byte: u8) -> u64
    ensures { result ≤ 16 }
{
    match byte {
        b'0'..=b'9' => (byte - b'0') as u64,
        b'a'..=b'f' => (byte - b'a' + 10) as u64,
        _ => 16,
    }
}

// The digit at a place, and 16 past the end.
fn digit_at(text: &[u8], at: usize) -> u64
    ensures { (result ≤ 16) × (result < 16 → at < length text.now) }
{
    if at < text.len() {
        return digit(text[at]);
    }
    16
}

// The byte of the two digits at a place, and 256 where there are none.
fn byte_at(text: &[u8], at: usize) -> u64
    ensures { (result ≤ 256) × (result < 256 → at + 2 ≤ length text.now) }
{
    let high = digit_at(text, at);
    if 16 <= high {
        return 256;
    }
    let low = digit_at(text, at + 1);
    if 16 <= low {
        return 256;
    }
    high * 16 + low
}

// The cursor past a field that ends there: at the next field, or at the end of the line.
fn past(text: &[u8], at: usize, good: bool) -> Cursor {
    if at < text.len() {
        if text[at] == b' ' {
            return Cursor { at: at + 1, good };
        }
        return Cursor { at, good: false };
    }
    Cursor { at, good }
}

// Reads a word: 1 to 16 digits.
pub fn read_word(text: &[u8], cursor: Cursor) -> Word {
    let start = cursor.at;
    let mut at = start;
    let mut value: u64 = 0;
    while digit_at(text, at) < 16 {
        value = (value << 4) | digit_at(text, at);
        at += 1;
    }
    let count = at - start;
    let good = cursor.good && 1 <= count && count <= 16;
    Word {
        cursor: past(text, at, good),
        value,
    }
}

// Decodes so many bytes into the first of the buffer, which has room for them.
fn decode(text: &[u8], start: usize, count: usize, out: &mut [u8]) -> Cursor
    requires { count ≤ length out.old }
    ensures { count ≤ length out.new }
{
    let mut at = start;
    let mut i = 0;
    while i < count {
        let byte = byte_at(text, at);
        if 256 <= byte {
            return Cursor { at, good: false };
        }
        out[i] = byte as u8;
        at += 2;
        i += 1;
    }
    past(text, at, true)
}

// Reads a string of bytes, its length first, into the first bytes of a buffer.
pub fn read_bytes(text: &[u8], cursor: Cursor, out: &mut [u8]) -> Decoded
    ensures { result.count ≤ length out.new }
{
    let length = read_word(text, cursor);
    let next = length.cursor;
    let wanted = length.value;
    if wanted == 0 {
        return Decoded {
            cursor: next,
            count: 0,
        };
    }
    if next.good && wanted <= out.len() as u64 {
        let count = wanted as usize;
        let end = decode(text, next.at, count, out);
        return Decoded { cursor: end, count };
    }
    Decoded {
        cursor: Cursor {
            at: next.at,
            good: false,
        },
        count: 0,
    }
}
