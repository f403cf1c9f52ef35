// Writing what goes out.
ghost use Rattle.std.specs.Prelude.{OnOk, ◌≤◌, ◌<◌, length, take};
ghost use Rattle.std.specs.Io.KnownBytes.{Appends, Keeps};

use std::io;
use std::io::Write;

// Writes the first `size` bytes: nothing if there are not so many.
pub fn write_front<W: Write>(to: &mut W, bytes: &[u8], size: usize) -> io::Result<()>
    ensures front { OnOk result (size ≤ length bytes.now → Appends (W.contents to.old) (W.contents to.new) (take size bytes.now)) }
    ensures none { length bytes.now < size → Keeps (W.contents to.old) (W.contents to.new) }
{
    match bytes.get(..size) {
        Some(front) => to.write_all(front),
        None => Ok(()),
    }
}
