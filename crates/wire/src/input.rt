// Reading what comes in.
ghost use Rattle.std.specs.Prelude.{IfOk, IsTrue};
ghost use Rattle.std.specs.Io.KnownBytes.{Consumes};

use std::io;
use std::io::{ErrorKind, Read};

// Reads until the buffer is full: false if the input ends before it is.
pub fn read_full<R: Read>(from: &mut R, buffer: &mut [u8]) -> io::Result<bool>
    ensures { IfOk result (λ full. IsTrue full → Consumes (R.remaining from.old) (R.remaining from.new) buffer.new) }
{
    match from.read_exact(buffer) {
        Ok(()) => Ok(true),
        Err(error) if error.kind() == ErrorKind::UnexpectedEof => Ok(false),
        Err(error) => Err(error),
    }
}
