// The line format of the oracle, oracle/FORMAT.md: the fields of a request are read, those of an answer are put into a
// lent buffer, and a vector is taken apart into its request and its answer. Test machinery: what is proved is that
// every function takes every input and ends, and the bounds that callers need; that a field is read and put as
// FORMAT.md says is seen by the vectors alone, whose answers would differ.
#![tactic(auto)]

mod fields;
mod lines;
mod put;
mod values;

pub use fields::{Cursor, Decoded, Word, read_bytes, read_word};
pub use lines::{Vector, line_at, next_line, split};
pub use put::{Reply, begin, first, none, put_bytes, put_decimal, put_text, put_word};
pub use values::{
    Asked, Byte, KindField, put_data, put_kind, put_place, put_places, put_string, put_truth,
    put_written, read_any_source, read_byte, read_kind, read_source, refused, refused_at,
    refused_with, taken_at, taken_with,
};
