// Whole texts in any encoding form: units read as code points, and code points written as units,
// into a lent buffer (document 01, 'Bytes'; document 02, #101).
ghost use Rattle.std.specs.Prelude.{◌≡◌, ◌≤◌, length};
ghost use Rattle.answers.specs.Answers.{checked, Makes};
ghost use Rattle.answers.specs.Checks.{no_room, passes, takes_text};
ghost use Rattle.encodings.specs.Forms.{read_in, write_in};
ghost use Rattle.encodings.specs.Reading.{ReadFrontsIn, ReadsIn};
ghost use Rattle.laws.specs.Writing.{Fronts};

use crate::answer::Counted;
use crate::form::EncodingForm;
use answers::Refusal;

// How many code points a text reads as.
fn read_count<E: EncodingForm>(text: &[E::Unit]) -> usize
    requires { length text.now ≤ 16384 }
    ensures { result ≡ length (read_in E.form (E.numbers text.now)) }
{
    let mut count: usize = 0;
    let mut at = 0;
    // A `while`, since each step is as long as what was read.
    while at < text.len() {
        let taken = E::read_at(text, at);
        at += taken.size;
        count += 1;
    }
    count
}

// The check of the room: 3. One for each unit is always enough, and then nothing is counted.
fn check_read_room<E: EncodingForm>(text: &[E::Unit], room: usize) -> Result<(), Refusal>
    requires { length text.now ≤ 16384 }
    ensures { checked result ≡ no_room room (length (read_in E.form (E.numbers text.now))) }
{
    if text.len() <= room {
        return Ok(());
    }
    answers::check_room(room, read_count::<E>(text))
}

// Writes what a text reads as to the front of `out`, which has room for it.
fn read_into<E: EncodingForm>(text: &[E::Unit], out: &mut [u32]) -> Counted
    requires text_len_bound { length text.now ≤ 16384 }
    requires text_in_bounds { length (read_in E.form (E.numbers text.now)) ≤ length out.old }
    ensures { ReadFrontsIn E.form (read_in E.form) (E.numbers text.now) out.old result out.new }
{
    let mut length: usize = 0;
    let mut ills: usize = 0;
    let mut read = 0;
    // A `while`, since each step is as long as what was read.
    while read < text.len() {
        let taken = E::read_at(text, read);
        out[length] = taken.code;
        length += 1;
        ills += taken.ill;
        read += taken.size;
    }
    Counted { length, ills }
}

// Reads a text of units into a lent buffer: refusals 1 and 3.
pub fn read_text<E: EncodingForm>(text: &[E::Unit], out: &mut [u32]) -> Result<Counted, Refusal>
    ensures { ReadsIn E.form (read_in E.form) (E.numbers text.now) out.old result out.new }
{
    E::check(text)?;
    check_read_room::<E>(text, out.len())?;
    Ok(read_into::<E>(text, out))
}

// How many units a text takes.
fn write_count<E: EncodingForm>(text: &[u32]) -> usize
    requires { length text.now ≤ 16384 }
    ensures { result ≡ length (write_in E.form text.now) }
{
    let mut count: usize = 0;
    for code in text {
        count += E::size_of(*code);
    }
    count
}

// The check of the room: 3. `MOST` for each code point are always enough, and then nothing is
// counted.
fn check_write_room<E: EncodingForm>(text: &[u32], room: usize) -> Result<(), Refusal>
    requires { length text.now ≤ 16384 }
    ensures { checked result ≡ no_room room (length (write_in E.form text.now)) }
{
    if E::MOST * text.len() <= room {
        return Ok(());
    }
    answers::check_room(room, write_count::<E>(text))
}

// Writes a text's units to the front of `out`, which has room for them.
fn write_into<E: EncodingForm>(text: &[u32], out: &mut [E::Unit]) -> usize
    requires text_value { takes_text text.now ≡ passes }
    requires text_in_bounds { length (write_in E.form text.now) ≤ length out.old }
    ensures { Fronts (write_in E.form text.now) (E.numbers out.old) result (E.numbers out.new) }
{
    let mut at: usize = 0;
    for code in text {
        at = E::put_at(*code, out, at);
    }
    at
}

// Writes a text's units into a lent buffer: refusals 1, 2 and 3.
pub fn write_text<E: EncodingForm>(text: &[u32], out: &mut [E::Unit]) -> Result<usize, Refusal>
    ensures { Makes (write_in E.form) text.now (E.numbers out.old) result (E.numbers out.new) }
{
    answers::check_text(text)?;
    check_write_room::<E>(text, out.len())?;
    Ok(write_into::<E>(text, out))
}
