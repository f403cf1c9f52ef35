// The checks of a text, the limit and bad code points, and of the room in a lent buffer (document
// 01, 'Refusal numbers').
ghost use Rattle.std.specs.Prelude.{◌≡◌};
ghost use Rattle.answers.specs.Checks.{bad, first_bad, no_room, takes_bytes, takes_text, takes_units};
ghost use Rattle.answers.specs.Answers.{checked};

use crate::refusal::Refusal;

// Over 10FFFF, or a surrogate.
pub fn is_bad(code: u32) -> bool
    ensures { result ≡ bad code }
{
    match code {
        0..=0xD7FF => false,
        0xE000..=0x10FFFF => false,
        _ => true,
    }
}

// The index of the first bad code point, or the text's length if there is none. By index: so the
// compiler tests four code points at once where it can, and by `position` it tests one.
pub fn first_bad(text: &[u32]) -> usize
    ensures { result ≡ first_bad text.now }
{
    for i in 0..text.len() {
        if is_bad(text[i]) {
            return i;
        }
    }
    text.len()
}

// The most code points, bytes or 16-bit units that a call takes.
pub const LIMIT: usize = 16384;

// The checks that a text of code points has to pass before anything is made of it: 1, then 2.
pub fn check_text(text: &[u32]) -> Result<(), Refusal>
    ensures { checked result ≡ takes_text text.now }
{
    if LIMIT < text.len() {
        return Err(Refusal::OverLimit(LIMIT));
    }
    let bad = first_bad(text);
    if bad < text.len() {
        return Err(Refusal::BadCodePoint(bad));
    }
    Ok(())
}

// The check that a text of bytes has to pass: 1.
pub fn check_bytes(bytes: &[u8]) -> Result<(), Refusal>
    ensures { checked result ≡ takes_bytes bytes.now }
{
    if LIMIT < bytes.len() {
        return Err(Refusal::OverLimit(LIMIT));
    }
    Ok(())
}

// The check that a text of 16-bit code units has to pass: 1.
pub fn check_units(units: &[u16]) -> Result<(), Refusal>
    ensures { checked result ≡ takes_units units.now }
{
    if LIMIT < units.len() {
        return Err(Refusal::OverLimit(LIMIT));
    }
    Ok(())
}

// The check that a lent buffer of so much room has to pass for an answer of the length needed: 3.
pub fn check_room(room: usize, needed: usize) -> Result<(), Refusal>
    ensures { checked result ≡ no_room room needed }
{
    if room < needed {
        return Err(Refusal::NoRoom(needed));
    }
    Ok(())
}
