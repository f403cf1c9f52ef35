// Refusals: a case for each number of document 01's table, its number and place, and the line that
// a program prints.
ghost use Rattle.std.specs.Prelude.{◌≡◌, length};
ghost use Rattle.answers.specs.Answers.{told, refused_line};

// A case for each number of the table, 1 to 7, with its place if the place varies.
#[derive(Clone, Copy, Debug, PartialEq, Eq)]
pub enum Refusal {
    // The input is over the limit, which is the place.
    OverLimit(usize),
    // The text has a bad code point, the first of them at this index.
    BadCodePoint(usize),
    // The answer is longer than the lent buffer, and this long.
    NoRoom(usize),
    // The code point asked to be named is no syllable.
    NoSyllable,
    // The bytes are no syllable's name.
    NoName,
    // The image is no whole number of records, or has not that one; the place is its length.
    NoRecord(usize),
    // A record breaks its layout, first at this byte of it, or a label cannot be stored.
    BadLayout(usize),
}

// A refusal as the table's number and place.
#[derive(Clone, Copy, Debug, PartialEq, Eq)]
pub struct Told {
    pub number: u32,
    pub place: usize,
}

// The number and the place of a refusal: the one place of the code that tells its cases apart.
pub fn tell(refusal: Refusal) -> Told
    ensures { result ≡ told refusal }
{
    match refusal {
        Refusal::OverLimit(limit) => Told {
            number: 1,
            place: limit,
        },
        Refusal::BadCodePoint(index) => Told {
            number: 2,
            place: index,
        },
        Refusal::NoRoom(needed) => Told {
            number: 3,
            place: needed,
        },
        Refusal::NoSyllable => Told {
            number: 4,
            place: 0,
        },
        Refusal::NoName => Told {
            number: 5,
            place: 0,
        },
        Refusal::NoRecord(length) => Told {
            number: 6,
            place: length,
        },
        Refusal::BadLayout(byte) => Told {
            number: 7,
            place: byte,
        },
    }
}

// The line that a program prints if it is refused: "refused N".
pub fn refusal_line(refusal: Refusal) -> [u8; 10]
    ensures value { 10 ≡ length result }
    ensures value_2 { result ≡ refused_line refusal }
{
    let told = tell(refusal);
    let mut line = *b"refused 0\n";
    line[8] = b'0' + told.number as u8;
    line
}
