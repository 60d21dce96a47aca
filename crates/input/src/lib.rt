// Reads what a program is given, to the end or as far as a buffer goes.
#![tactic(auto)]

ghost use Rattle.std.specs.Prelude.{◌<◌, IfOk, length, take};
ghost use Rattle.std.specs.Io.{ReadsAtMost};
ghost use Rattle.std.specs.Io.KnownBytes.{Consumes, IsAtEnd};

use std::io::{Read, Result};

// Fills a buffer, and answers how many bytes were read: fewer than it holds only where the input has ended. The
// library's `read_exact` doesn't say how many, and its `read_to_end` takes no buffer but one of the heap.
pub fn read_full<R: Read>(input: &mut R, buffer: &mut [u8]) -> Result<usize>
    ensures bound { ReadsAtMost result buffer.new }
    ensures bytes { IfOk result (λ n.
        Consumes (R.remaining input.old) (R.remaining input.new) (take n buffer.new)) }
    ensures end { IfOk result (λ n. n < length buffer.new → IsAtEnd (R.remaining input.new)) }
{
    let mut done = 0;
    while done < buffer.len() {
        let count = input.read(&mut buffer[done..])?;
        if count == 0 {
            return Ok(done);
        }
        done += count;
    }
    Ok(done)
}
