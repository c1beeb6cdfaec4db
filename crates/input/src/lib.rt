// Reading a network file to its end.
#![tactic(auto)]

ghost use Rattle.std.specs.Prelude.{◌≤◌, IfOk, length, take};
ghost use Rattle.std.specs.Io.KnownBytes.{Consumes};
ghost use Rattle.input.specs.Reading.{ReadsAll};

use std::io;
use std::io::Read;

// The room for a file: one byte more than it may have, so that a file that is too long is seen to be.
pub const ROOM: usize = 32769;

// Reads to the end of the input, or until the buffer is full. The bytes stand at the start of the buffer; answers how many. The loop
// counts them: `read_exact` fails where the input ends, `read_to_end` needs a heap, and `io::copy` into a `Cursor` says of no count that it
// is at most the room.
pub fn read<R: Read>(from: &mut R, buf: &mut [u8]) -> io::Result<usize>
    ensures bound { IfOk result (λ n. n ≤ length buf.old) }
    ensures bytes { IfOk result (λ n. Consumes (R.remaining from.old) (R.remaining from.new) (take n buf.new)) }
    ensures all { IfOk result (λ n. ReadsAll (R.remaining from.old) (length buf.old) (take n buf.new)) }
{
    let mut at: usize = 0;
    while at < buf.len() {
        let n = from.read(&mut buf[at..])?;
        if n == 0 {
            return Ok(at);
        }
        at += n;
    }
    Ok(at)
}
