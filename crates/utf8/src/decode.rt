// Decoding: what begins at an index of a text of bytes, by the rows of table 3-7, and where a text
// is first ill-formed.
ghost use Rattle.std.specs.Prelude.{◌≡◌, [], ◌∷◌, get_or, drop};
ghost use Rattle.std.proofs.Math.Option.{some};
ghost use Rattle.laws.specs.Ranges.{within};
ghost use Rattle.encodings.specs.Pieces.{pieces};
ghost use Rattle.encodings.specs.Rows.{◌to◌};
ghost use Rattle.utf8.specs.Table37.{continuation, kind_of};
ghost use Rattle.utf8.specs.Utf8.{first_ill};
ghost use Rattle.utf8.specs.Reading.{taken_from};
ghost use Rattle.utf8.specs.Inner.{Begins};

use encodings::Taken;

// The byte at an index, or 0 after the end. No sequence goes on with 0, so the end of the text and
// a wrong byte are one case.
pub fn byte_at(text: &[u8], at: usize) -> u8
    ensures { result ≡ get_or text.now at 0 }
{
    if at < text.len() {
        return text[at];
    }
    0
}

fn is_within(low: u8, high: u8, byte: u8) -> bool
    ensures { result ≡ within low high byte }
{
    (low..=high).contains(&byte)
}

// Is it a continuation byte?
pub fn is_continuation(byte: u8) -> bool
    ensures { result ≡ within 0x80 0xBF byte }
{
    is_within(0x80, 0xBF, byte)
}

// A row of two bytes.
fn read_two(text: &[u8], at: usize, first: u32) -> Taken
    requires { Begins text.now at first (some (continuation ∷ [])) 0xC2 0xDF }
    ensures { result ≡ taken_from (pieces kind_of (drop at text.now)) }
{
    let second = byte_at(text, at + 1);
    if !is_continuation(second) {
        return Taken::ill(1);
    }
    Taken::good(first % 32 * 64 + second as u32 % 64, 2)
}

// A row of three bytes, of which the second lies between `low` and `high`.
fn read_three(text: &[u8], at: usize, first: u32, low: u8, high: u8) -> Taken
    requires { Begins text.now at first (some ((low to high) ∷ continuation ∷ [])) 0xE0 0xEF }
    ensures { result ≡ taken_from (pieces kind_of (drop at text.now)) }
{
    let second = byte_at(text, at + 1);
    if !is_within(low, high, second) {
        return Taken::ill(1);
    }
    let third = byte_at(text, at + 2);
    if !is_continuation(third) {
        return Taken::ill(2);
    }
    Taken::good(
        first % 16 * 4096 + second as u32 % 64 * 64 + third as u32 % 64,
        3,
    )
}

// A row of four bytes, of which the second lies between `low` and `high`.
fn read_four(text: &[u8], at: usize, first: u32, low: u8, high: u8) -> Taken
    requires { Begins text.now at first (some ((low to high) ∷ continuation ∷ continuation ∷ [])) 0xF0 0xF4 }
    ensures { result ≡ taken_from (pieces kind_of (drop at text.now)) }
{
    let second = byte_at(text, at + 1);
    if !is_within(low, high, second) {
        return Taken::ill(1);
    }
    let third = byte_at(text, at + 2);
    if !is_continuation(third) {
        return Taken::ill(2);
    }
    let fourth = byte_at(text, at + 3);
    if !is_continuation(fourth) {
        return Taken::ill(3);
    }
    Taken::good(
        first % 8 * 262144
            + second as u32 % 64 * 4096
            + third as u32 % 64 * 64
            + fourth as u32 % 64,
        4,
    )
}

// The code point that begins at an index, or one FFFD for the ill-formed subpart there. The rows
// are those of table 3-7.
pub fn read_at(text: &[u8], at: usize) -> Taken
    ensures { result ≡ taken_from (pieces kind_of (drop at text.now)) }
{
    if text.len() <= at {
        return Taken::good(0, 0);
    }
    let first = text[at] as u32;
    match first {
        0..=0x7F => Taken::good(first, 1),
        0xC2..=0xDF => read_two(text, at, first),
        0xE0 => read_three(text, at, first, 0xA0, 0xBF),
        0xE1..=0xEC => read_three(text, at, first, 0x80, 0xBF),
        0xED => read_three(text, at, first, 0x80, 0x9F),
        0xEE..=0xEF => read_three(text, at, first, 0x80, 0xBF),
        0xF0 => read_four(text, at, first, 0x90, 0xBF),
        0xF1..=0xF3 => read_four(text, at, first, 0x80, 0xBF),
        0xF4 => read_four(text, at, first, 0x80, 0x8F),
        _ => Taken::ill(1),
    }
}

// The index of the first ill-formed subpart, or the length if there is none.
pub fn first_ill(text: &[u8]) -> usize
    ensures { result ≡ first_ill text.now }
{
    let mut at = 0;
    // A `while`, since each step is as long as what was read.
    while at < text.len() {
        let taken = read_at(text, at);
        if taken.ill != 0 {
            return at;
        }
        at += taken.size;
    }
    at
}
