// The fields of an answer, put into a lent buffer from its first byte on.
ghost use Rattle.std.specs.Prelude.{◌<◌};

use crate::fields::Cursor;

// How much of an answer was put, and whether it is one: not if its request could not be read, or there was no room.
#[derive(Clone, Copy)]
pub struct Reply {
    pub at: usize,
    pub good: bool,
}

// The answer, still empty, to a request whose last field was read.
pub fn begin(text: &[u8], cursor: Cursor) -> Reply {
    Reply {
        at: 0,
        good: cursor.good && text.len() <= cursor.at,
    }
}

// The answer to a request that is not answered.
pub fn none() -> Reply {
    Reply { at: 0, good: false }
}

// The first bytes of a slice, and all of it where it has fewer.
pub fn first(slice: &[u8], count: usize) -> &[u8] {
    if count <= slice.len() {
        return &slice[0..count];
    }
    slice
}

fn put_byte(out: &mut [u8], reply: Reply, byte: u8) -> Reply {
    let at = reply.at;
    if at < out.len() {
        out[at] = byte;
        return Reply {
            at: at + 1,
            good: reply.good,
        };
    }
    Reply { at, good: false }
}

// Puts a text as it is.
pub fn put_text(out: &mut [u8], reply: Reply, text: &[u8]) -> Reply {
    let mut put = reply;
    let mut i = 0;
    while i < text.len() {
        put = put_byte(out, put, text[i]);
        i += 1;
    }
    put
}

// Puts the space that stands between two fields.
fn put_space(out: &mut [u8], reply: Reply) -> Reply {
    if reply.at == 0 {
        return reply;
    }
    put_byte(out, reply, b' ')
}

// Puts the digit of a number below 16, in lower-case hex.
fn put_digit(out: &mut [u8], reply: Reply, digit: u8) -> Reply
    requires { digit < 16 }
{
    let byte = if digit < 10 {
        b'0' + digit
    } else {
        b'a' - 10 + digit
    };
    put_byte(out, reply, byte)
}

// Puts a word: lower-case hex without leading zeros.
pub fn put_word(out: &mut [u8], reply: Reply, value: u64) -> Reply {
    let mut put = put_space(out, reply);
    for i in (0..16u32).rev() {
        let rest = value >> (4 * i);
        if rest != 0 || i == 0 {
            put = put_digit(out, put, (rest % 16) as u8);
        }
    }
    put
}

// Puts a number in decimal.
pub fn put_decimal(out: &mut [u8], reply: Reply, value: u64) -> Reply {
    let mut digits = itoa::Buffer::new();
    put_text(out, reply, digits.format(value).as_bytes())
}

// Puts the two digits of a byte.
fn put_pair(out: &mut [u8], reply: Reply, byte: u8) -> Reply {
    let high = put_digit(out, reply, byte / 16);
    put_digit(out, high, byte % 16)
}

// Puts a string of bytes, its length first.
pub fn put_bytes(out: &mut [u8], reply: Reply, bytes: &[u8]) -> Reply {
    let mut put = put_word(out, reply, bytes.len() as u64);
    if bytes.len() == 0 {
        return put;
    }
    put = put_space(out, put);
    let mut i = 0;
    while i < bytes.len() {
        put = put_pair(out, put, bytes[i]);
        i += 1;
    }
    put
}
