// Reading one record of an image, its label into a lent buffer.
ghost use Rattle.std.specs.Prelude.{◌≡◌};
ghost use Rattle.answers.specs.Checks.{passes};
ghost use Rattle.labels.specs.Images.{takes_record, Finds};

use crate::record::Entry;
use answers::Refusal;

// Reads a record that has passed 1, 6 and 7: refusal 3 or done.
fn read_checked(image: &[u8], number: usize, out: &mut [u8]) -> Result<Entry, Refusal>
    requires { takes_record image.now number ≡ passes }
    ensures { Finds image.now number out.old result out.new }
{
    let entry = crate::record::entry_at(image, number);
    let size = entry.length;
    answers::check_room(out.len(), size)?;
    let from = 96 * number + 8;
    let to = from + size;
    crate::record::copy(&image[from..to], out);
    Ok(entry)
}

// Reads one record of an image, its label into a lent buffer: refusals 1, 6, 7 and 3.
pub fn read_record(image: &[u8], number: usize, out: &mut [u8]) -> Result<Entry, Refusal>
    ensures { Finds image.now number out.old result out.new }
{
    crate::layout::check_one(image, number)?;
    read_checked(image, number, out)
}
