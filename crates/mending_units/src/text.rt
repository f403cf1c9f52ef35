// Mending a text of units into a lent buffer, in one pass (document 02, #101).
ghost use Rattle.std.specs.Prelude.{◌≡◌, ◌+◌, ◌-◌, ◌≤◌, ◌<◌, length};
ghost use Rattle.answers.specs.Checks.{no_room};
ghost use Rattle.answers.specs.Answers.{checked};
ghost use Rattle.encodings.specs.Reading.{ReadFrontsIn, ReadsIn};
ghost use Rattle.utf16.specs.Utf16.{form16};
ghost use Rattle.mending.specs.Inner.{Copies, ReadyIn, MovedIn, FitsIn, PlacedIn};
ghost use Rattle.mending_units.specs.Mending.{mended_units};

use answers::Refusal;
use encodings::{Counted, Taken};
use mending::At;
use utf16::Utf16;

// Copies the units between two indices, and answers the index after them in `out`. One by one:
// `copy_from_slice` calls memmove, and the archive for C calls nothing.
fn copy(text: &[u16], from: usize, to: usize, out: &mut [u16], at: usize) -> usize
    requires from_le_to { from ≤ to }
    requires to_in_bounds { to ≤ length text.now }
    requires from_in_bounds { at + (to - from) ≤ length out.old }
    ensures { Copies text.now from to out.old at result out.new }
{
    let mut written = at;
    for read in from..to {
        out[written] = text[read];
        written += 1;
    }
    written
}

// Writes a character. This and what follows are no methods of `At`, which is a type of mending.
fn place(out: &mut [u16], s: At, taken: Taken) -> At
    requires { FitsIn form16 out.old s taken }
    ensures { PlacedIn form16 out.old s taken result out.new }
{
    let written = utf16::put_at(taken.code, out, s.written);
    At {
        read: s.read + taken.size,
        written,
        ills: s.ills + taken.ill,
    }
}

// Writes a character that is one unit, and tests nothing that is known.
fn set(out: &mut [u16], s: At, taken: Taken) -> At
    requires fits_in { FitsIn form16 out.old s taken }
    requires code_bound { taken.code < 0x10000 }
    ensures { PlacedIn form16 out.old s taken result out.new }
{
    let at = s.written;
    out[at] = taken.code as u16;
    At {
        read: s.read + taken.size,
        written: at + 1,
        ills: s.ills + taken.ill,
    }
}

// One character: the fast paths for one that joins to nothing, then the general path.
fn make(text: &[u16], out: &mut [u16], s: At) -> At
    requires { ReadyIn form16 text.now out.old s }
    ensures { MovedIn form16 text.now out.old s result out.new }
{
    if let Some(unpaired) = crate::lone::unpaired_at(text, s.read) {
        return set(out, s, unpaired);
    }
    if let Some(letter) = crate::lone::letter_at(text, s.read) {
        return set(out, s, letter);
    }
    let taken = mending::general_at::<Utf16>(text, s.read);
    place(out, s, taken)
}

// What passes, or else one character.
fn pass(text: &[u16], out: &mut [u16], s: At) -> At
    requires { ReadyIn form16 text.now out.old s }
    ensures { MovedIn form16 text.now out.old s result out.new }
{
    let read = s.read;
    let end = crate::unchanged::run(text, read);
    if end == read {
        return make(text, out, s);
    }
    let written = copy(text, read, end, out, s.written);
    At {
        read: end,
        written,
        ills: s.ills,
    }
}

// A syllable of letters, or else what comes.
fn advance(text: &[u16], out: &mut [u16], s: At) -> At
    requires { ReadyIn form16 text.now out.old s }
    ensures { MovedIn form16 text.now out.old s result out.new }
{
    match crate::spelled::spelled_at(text, s.read) {
        Some(spelled) => set(out, s, spelled),
        None => pass(text, out, s),
    }
}

// Writes the mended text to the front of `out`, which has room for it.
fn mend_into(text: &[u16], out: &mut [u16]) -> Counted
    requires text_len_bound { length text.now ≤ 16384 }
    requires text_in_bounds { length (mended_units text.now) ≤ length out.old }
    ensures { ReadFrontsIn form16 mended_units text.now out.old result out.new }
{
    let mut s = At {
        read: 0,
        written: 0,
        ills: 0,
    };
    // a while: a turn reads as many units as it takes
    while s.read < text.len() {
        s = advance(text, out, s);
    }
    Counted {
        length: s.written,
        ills: s.ills,
    }
}

// The check of the room: 3. As many units as come in are always enough, and then nothing is
// counted.
fn check_mend_room(text: &[u16], room: usize) -> Result<(), Refusal>
    requires { length text.now ≤ 16384 }
    ensures { checked result ≡ no_room room (length (mended_units text.now)) }
{
    if text.len() <= room {
        return Ok(());
    }
    answers::check_room(room, crate::length::mended_count(text))
}

// Mends a text of units into a lent buffer: refusals 1 and 3.
pub fn mend(text: &[u16], out: &mut [u16]) -> Result<Counted, Refusal>
    ensures { ReadsIn form16 mended_units text.now out.old result out.new }
{
    answers::check_units(text)?;
    check_mend_room(text, out.len())?;
    Ok(mend_into(text, out))
}
