// Whole texts: units read as code points, and code points written as units, into a lent buffer
// (document 02, #101).
ghost use Rattle.encodings.specs.Reading.{ReadsIn};
ghost use Rattle.utf16.specs.Utf16.{form16, read_units, write_units};
ghost use Rattle.answers.specs.Answers.{Makes};

use crate::form::Utf16;
use answers::Refusal;
use encodings::Counted;

// Reads a text of units into a lent buffer: refusals 1 and 3.
pub fn read_units(text: &[u16], out: &mut [u32]) -> Result<Counted, Refusal>
    ensures { ReadsIn form16 read_units text.now out.old result out.new }
{
    encodings::read_text::<Utf16>(text, out)
}

// Writes a text as UTF-16 into a lent buffer: refusals 1, 2 and 3.
pub fn write_units(text: &[u32], out: &mut [u16]) -> Result<usize, Refusal>
    ensures { Makes write_units text.now out.old result out.new }
{
    encodings::write_text::<Utf16>(text, out)
}
