// Whole texts: bytes read as code points, and code points written as bytes, into a lent buffer
// (document 01, 'Bytes').
ghost use Rattle.utf8.specs.Utf8.{read_text, write_text};
ghost use Rattle.utf8.specs.Reading.{Reads};
ghost use Rattle.answers.specs.Answers.{Makes};

use crate::form::Utf8;
use answers::Refusal;
use encodings::Counted;

// Reads a text of bytes into a lent buffer: refusals 1 and 3.
pub fn read_text(text: &[u8], out: &mut [u32]) -> Result<Counted, Refusal>
    ensures { Reads read_text text.now out.old result out.new }
{
    encodings::read_text::<Utf8>(text, out)
}

// Writes a text as UTF-8 into a lent buffer: refusals 1, 2 and 3.
pub fn write_text(text: &[u32], out: &mut [u8]) -> Result<usize, Refusal>
    ensures { Makes write_text text.now out.old result out.new }
{
    encodings::write_text::<Utf8>(text, out)
}
