// The character at an index by a fast path: ASCII, a syllable spelled in letters, or a finished
// syllable to which nothing joins; else by the general path.
ghost use Rattle.std.specs.Prelude.{◌≡◌, [], ◌∷◌, ◌≤◌, length, drop, IfSome};
ghost use Rattle.encodings.specs.Pieces.{pieces};
ghost use Rattle.utf8.specs.Table37.{kind_of};
ghost use Rattle.utf8.specs.Utf8.{value_of};
ghost use Rattle.mending.specs.Characters.{character_from};

use encodings::Taken;
use utf8::Utf8;

// The code point of three bytes.
fn three_code(first: u8, second: u8, third: u8) -> u32
    requires le_first { 0xE0 ≤ first }
    requires le_second { 0x80 ≤ second }
    requires le_third { 0x80 ≤ third }
    ensures { result ≡ value_of (first ∷ second ∷ third ∷ []) }
{
    (first as u32 - 0xE0) * 4096 + (second as u32 - 0x80) * 64 + (third as u32 - 0x80)
}

// A character from A000 to D7FF with no letter after it.
fn finished_at(text: &[u8], at: usize) -> Option<Taken>
    requires { at ≤ length text.now }
    ensures { IfSome result (λ taken. taken ≡ character_from (pieces kind_of (drop at text.now))) }
{
    if text.len() - at < 3 {
        return None;
    }
    let first = text[at];
    let second = text[at + 1];
    let third = text[at + 2];
    if !crate::unchanged::is_three(first, second, third, utf8::byte_at(text, at + 3)) {
        return None;
    }
    Some(Taken {
        code: three_code(first, second, third),
        size: 3,
        ill: 0,
    })
}

// A character that needs no joiner.
fn shorter_at(text: &[u8], at: usize) -> Option<Taken>
    ensures { IfSome result (λ taken. taken ≡ character_from (pieces kind_of (drop at text.now))) }
{
    if text.len() <= at {
        return None;
    }
    match text[at] {
        byte @ 0..=0x7F => Some(Taken {
            code: byte as u32,
            size: 1,
            ill: 0,
        }),
        0xE1 => crate::spelled::spelled_at(text, at),
        _ => finished_at(text, at),
    }
}

// The character that begins at an index.
pub fn character_at(text: &[u8], at: usize) -> Taken
    ensures { result ≡ character_from (pieces kind_of (drop at text.now)) }
{
    match shorter_at(text, at) {
        Some(shorter) => shorter,
        None => crate::character::general_at::<Utf8>(text, at),
    }
}
