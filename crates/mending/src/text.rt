// Mending a text of bytes into a lent buffer, in one pass (document 01, 'Bytes').
ghost use Rattle.std.specs.Prelude.{◌≡◌, ◌+◌, ◌-◌, ◌≤◌, ◌<◌, length};
ghost use Rattle.answers.specs.Checks.{no_room};
ghost use Rattle.answers.specs.Answers.{checked};
ghost use Rattle.utf8.specs.Reading.{ReadFronts, Reads};
ghost use Rattle.mending.specs.Mending.{mended};
ghost use Rattle.mending.specs.Inner.{Copies, Triple, Ready, Moved, Fits, Placed};

use answers::Refusal;
use encodings::{Counted, Taken};
use utf8::Utf8;

// How far mending has come.
#[derive(Clone, Copy)]
pub struct At {
    pub read: usize,
    pub written: usize,
    pub ills: usize,
}

// Copies the bytes between two indices, and answers the index after them in `out`. One by one:
// `copy_from_slice` calls memmove, and the archive for C calls nothing.
fn copy(text: &[u8], from: usize, to: usize, out: &mut [u8], at: usize) -> usize
    requires from_le_to { from ≤ to }
    requires to_in_bounds { to ≤ length text.now }
    requires from_in_bounds { at + (to - from) ≤ length out.old }
    ensures { Copies text.now from to out.old at result out.new }
{
    let mut written = at;
    for read in from..to {
        out[written] = text[read];
        written += 1;
    }
    written
}

impl At {
    // Writes a character.
    fn place(self, out: &mut [u8], taken: Taken) -> At
        requires { Fits out.old self taken }
        ensures { Placed out.old self taken result out.new }
    {
        let written = utf8::put_at(taken.code, out, self.written);
        At {
            read: self.read + taken.size,
            written,
            ills: self.ills + taken.ill,
        }
    }

    // Writes a character whose code point takes three bytes, and tests nothing that is known.
    fn set(self, out: &mut [u8], taken: Taken) -> At
        requires fits { Fits out.old self taken }
        requires triple { Triple taken.code }
        ensures { Placed out.old self taken result out.new }
    {
        let code = taken.code;
        let at = self.written;
        out[at] = (0xE0 + code / 4096) as u8;
        out[at + 1] = (0x80 + code / 64 % 64) as u8;
        out[at + 2] = (0x80 + code % 64) as u8;
        At {
            read: self.read + taken.size,
            written: at + 3,
            ills: self.ills + taken.ill,
        }
    }

    // One character: the fast paths for one that joins to nothing, then the general path.
    fn make(self, text: &[u8], out: &mut [u8]) -> At
        requires { Ready text.now out.old self }
        ensures { Moved text.now out.old self result out.new }
    {
        if let Some(ill) = crate::lone::ill_at(text, self.read) {
            return self.set(out, ill);
        }
        if let Some(letter) = crate::lone::letter_at(text, self.read) {
            return self.set(out, letter);
        }
        let taken = crate::character::general_at::<Utf8>(text, self.read);
        self.place(out, taken)
    }

    // What passes, or else one character.
    fn pass(self, text: &[u8], out: &mut [u8]) -> At
        requires { Ready text.now out.old self }
        ensures { Moved text.now out.old self result out.new }
    {
        let read = self.read;
        let end = crate::unchanged::passing(text, read);
        if end == read {
            return self.make(text, out);
        }
        let written = copy(text, read, end, out, self.written);
        At {
            read: end,
            written,
            ills: self.ills,
        }
    }

    // A syllable of letters, or else what comes.
    fn advance(self, text: &[u8], out: &mut [u8]) -> At
        requires { Ready text.now out.old self }
        ensures { Moved text.now out.old self result out.new }
    {
        match crate::spelled::spelled_at(text, self.read) {
            Some(spelled) => self.set(out, spelled),
            None => self.pass(text, out),
        }
    }
}

// Writes the mended text to the front of `out`, which has room for it.
fn mend_into(text: &[u8], out: &mut [u8]) -> Counted
    requires text_len_bound { length text.now ≤ 16384 }
    requires text_in_bounds { length (mended text.now) ≤ length out.old }
    ensures { ReadFronts mended text.now out.old result out.new }
{
    let mut s = At {
        read: 0,
        written: 0,
        ills: 0,
    };
    // a while: a turn reads as many bytes as it takes
    while s.read < text.len() {
        s = s.advance(text, out);
    }
    Counted {
        length: s.written,
        ills: s.ills,
    }
}

// The check of the room: 3. Three for each byte are always enough, and then nothing is counted.
fn check_mend_room(text: &[u8], room: usize) -> Result<(), Refusal>
    requires { length text.now ≤ 16384 }
    ensures { checked result ≡ no_room room (length (mended text.now)) }
{
    if 3 * text.len() <= room {
        return Ok(());
    }
    answers::check_room(room, crate::length::mended_count(text))
}

// Mends a text of bytes into a lent buffer: refusals 1 and 3.
pub fn mend(text: &[u8], out: &mut [u8]) -> Result<Counted, Refusal>
    ensures { Reads mended text.now out.old result out.new }
{
    answers::check_bytes(text)?;
    check_mend_room(text, out.len())?;
    Ok(mend_into(text, out))
}
