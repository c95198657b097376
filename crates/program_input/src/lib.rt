// What programs read: bytes into a buffer, until that is full or the input ends.
#![tactic(auto)]

ghost use Rattle.std.specs.Prelude.{◌≤◌, ◌<◌, IfOk, length, take};
ghost use Rattle.std.specs.Io.KnownBytes.{Consumes, IsAtEnd};

use std::io;
use std::io::Read;

// Reads until a buffer is full or the input ends, and answers how many bytes it put at the start of the buffer.
pub fn read_full<R: Read>(from: &mut R, to: &mut [u8]) -> io::Result<usize>
    ensures fits { IfOk result (λ n. n ≤ length to.new) }
    ensures bytes { IfOk result (λ n. Consumes (R.remaining from.old) (R.remaining from.new) (take n to.new)) }
    ensures end { IfOk result (λ n. n < length to.new → IsAtEnd (R.remaining from.new)) }
{
    let mut done = 0;
    // Kept: no plainer as a `for`, which would count reads where the loop goes by the bytes that they gave.
    while done < to.len() {
        let n = from.read(&mut to[done..])?;
        if n == 0 {
            return Ok(done);
        }
        done += n;
    }
    Ok(done)
}
