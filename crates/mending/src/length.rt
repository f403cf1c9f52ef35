// How long the mended text is, counted in one pass with no buffer.
ghost use Rattle.std.specs.Prelude.{◌≡◌, ◌≤◌, length};
ghost use Rattle.mending.specs.Mending.{mended};
ghost use Rattle.mending.specs.Inner.{CountReady, CountMoved, CountFits, CountPlaced};

use encodings::Taken;
use utf8::Utf8;

// How far counting has come.
#[derive(Clone, Copy)]
pub struct Count {
    pub read: usize,
    pub length: usize,
}

impl Count {
    // Counts a character.
    fn place(self, taken: Taken) -> Count
        requires { CountFits self taken }
        ensures { CountPlaced self taken result }
    {
        Count {
            read: self.read + taken.size,
            length: self.length + utf8::size_of(taken.code),
        }
    }

    // Counts what passes, or else one character.
    fn pass(self, text: &[u8]) -> Count
        requires { CountReady text.now self }
        ensures { CountMoved text.now self result }
    {
        let read = self.read;
        let end = crate::unchanged::run(text, read);
        if end == read {
            let taken = crate::character::general_at::<Utf8>(text, read);
            return self.place(taken);
        }
        Count {
            read: end,
            length: self.length + (end - read),
        }
    }

    // Counts a syllable of letters, or else what comes.
    fn advance(self, text: &[u8]) -> Count
        requires { CountReady text.now self }
        ensures { CountMoved text.now self result }
    {
        match crate::spelled::spelled_at(text, self.read) {
            Some(spelled) => self.place(spelled),
            None => self.pass(text),
        }
    }
}

// How long the mended text is.
pub(crate) fn mended_count(text: &[u8]) -> usize
    requires { length text.now ≤ 16384 }
    ensures { result ≡ length (mended text.now) }
{
    let mut s = Count { read: 0, length: 0 };
    // a while: a turn reads as many bytes as it takes
    while s.read < text.len() {
        s = s.advance(text);
    }
    s.length
}
