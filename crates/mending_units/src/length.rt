// How long the mended text is, counted in one pass with no buffer.
ghost use Rattle.std.specs.Prelude.{◌≡◌, ◌≤◌, length};
ghost use Rattle.utf16.specs.Utf16.{form16};
ghost use Rattle.mending.specs.Inner.{CountReadyIn, CountMovedIn, CountFitsIn, CountPlacedIn};
ghost use Rattle.mending_units.specs.Mending.{mended_units};

use encodings::Taken;
use mending::Count;
use utf16::Utf16;

// Counts a character. This and what follows are no methods of `Count`, which is a type of mending.
fn count_place(s: Count, taken: Taken) -> Count
    requires { CountFitsIn form16 s taken }
    ensures { CountPlacedIn form16 s taken result }
{
    Count {
        read: s.read + taken.size,
        length: s.length + utf16::size_of(taken.code),
    }
}

// Counts what passes, or else one character.
fn count_pass(text: &[u16], s: Count) -> Count
    requires { CountReadyIn form16 text.now s }
    ensures { CountMovedIn form16 text.now s result }
{
    let read = s.read;
    let end = crate::unchanged::run(text, read);
    if end == read {
        let taken = mending::general_at::<Utf16>(text, read);
        return count_place(s, taken);
    }
    Count {
        read: end,
        length: s.length + (end - read),
    }
}

// Counts a syllable of letters, or else what comes.
fn count_advance(text: &[u16], s: Count) -> Count
    requires { CountReadyIn form16 text.now s }
    ensures { CountMovedIn form16 text.now s result }
{
    match crate::spelled::spelled_at(text, s.read) {
        Some(spelled) => count_place(s, spelled),
        None => count_pass(text, s),
    }
}

// How long the mended text is.
pub(crate) fn mended_count(text: &[u16]) -> usize
    requires { length text.now ≤ 16384 }
    ensures { result ≡ length (mended_units text.now) }
{
    let mut s = Count { read: 0, length: 0 };
    // a while: a turn reads as many units as it takes
    while s.read < text.len() {
        s = count_advance(text, s);
    }
    s.length
}
