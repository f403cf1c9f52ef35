// Reading what comes in.
ghost use Rattle.std.specs.Prelude.{IfOk, ◌≤◌, ◌<◌, length, take};
ghost use Rattle.std.specs.Io.KnownBytes.{Consumes, IsAtEnd};

use std::io;
use std::io::Read;

// Reads until the buffer is full or the input ends, and says how many bytes came in.
// The loop stays a `while`: each read says how far it goes, so that no iterator counts its steps.
pub fn read_full<R: Read>(from: &mut R, buffer: &mut [u8]) -> io::Result<usize>
    ensures fits { IfOk result (λ size. size ≤ length buffer.new) }
    ensures bytes { IfOk result (λ size. Consumes (R.remaining from.old) (R.remaining from.new) (take size buffer.new)) }
    ensures end { IfOk result (λ size. size < length buffer.new → IsAtEnd (R.remaining from.new)) }
{
    let mut size = 0;
    while size < buffer.len() {
        let more = from.read(&mut buffer[size..])?;
        if more == 0 {
            return Ok(size);
        }
        size += more;
    }
    Ok(size)
}
