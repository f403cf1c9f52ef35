// Decoding: what begins at an index of a text of units, by D91.
ghost use Rattle.std.specs.Prelude.{◌≡◌, ◌<◌, get_or, drop};
ghost use Rattle.encodings.specs.Forms.{pieces_in};
ghost use Rattle.encodings.specs.Reading.{taken_in};
ghost use Rattle.utf16.specs.Utf16.{form16};
ghost use Rattle.utf16.specs.Inner.{BeginsPair};

use encodings::Taken;

// The unit at an index, or 0 after the end. No pair goes on with 0, so the end of the text and a
// wrong unit are one case. That it has 16 bits is said beside the equation, for callers.
pub fn unit_at(text: &[u16], at: usize) -> u32
    ensures value { result ≡ get_or text.now at 0 }
    ensures upper_bound { result < 0x10000 }
{
    if at < text.len() {
        return text[at] as u32;
    }
    0
}

// The high surrogate at an index: a pair, or unpaired.
fn read_pair(text: &[u16], at: usize, first: u32) -> Taken
    requires { BeginsPair text.now at first }
    ensures { result ≡ taken_in form16 (pieces_in form16 (drop at text.now)) }
{
    let second = unit_at(text, at + 1);
    if second < 0xDC00 {
        return Taken::ill(1);
    }
    if second > 0xDFFF {
        return Taken::ill(1);
    }
    Taken::good(0x10000 + (first - 0xD800) * 0x400 + (second - 0xDC00), 2)
}

// The code point that begins at an index, or one FFFD for the unpaired surrogate there.
pub fn read_at(text: &[u16], at: usize) -> Taken
    ensures { result ≡ taken_in form16 (pieces_in form16 (drop at text.now)) }
{
    if text.len() <= at {
        return Taken::good(0, 0);
    }
    let first = text[at] as u32;
    match first {
        0xD800..=0xDBFF => read_pair(text, at, first),
        0xDC00..=0xDFFF => Taken::ill(1),
        _ => Taken::good(first, 1),
    }
}
