// Fast paths for what joins to nothing: an ill-formed subpart, and a letter with no letter after it
// that joins to it. Both are found by their bytes.
ghost use Rattle.std.specs.Prelude.{◌≡◌, length, drop, ◌≤◌, ◌<◌, IfSome};
ghost use Rattle.encodings.specs.Pieces.{pieces};
ghost use Rattle.utf8.specs.Table37.{kind_of};
ghost use Rattle.encodings.specs.Reading.{ill_of};
ghost use Rattle.utf8.specs.Reading.{taken_from};
ghost use Rattle.mending.specs.Characters.{character_from};
ghost use Rattle.laws.specs.Ranges.{within};
ghost use Rattle.mending.specs.Inner.{OfTail, Triple};

use encodings::Taken;

// How many bytes the ill-formed subpart at an index has, if its first byte is below C2 or from E1
// to EF.
fn ill_size(text: &[u8], at: usize) -> Option<usize>
    requires { at < length text.now }
    ensures { IfSome result (λ size. character_from (pieces kind_of (drop at text.now)) ≡ ill_of size) }
{
    let first = text[at];
    match first {
        0x80..=0xC1 => Some(1),
        0xE1..=0xEF if !utf8::is_continuation(utf8::byte_at(text, at + 1)) => Some(1),
        0xED => None,
        0xE1..=0xEF if !utf8::is_continuation(utf8::byte_at(text, at + 2)) => Some(2),
        _ => None,
    }
}

// The ill-formed subpart at an index, as FFFD.
pub(crate) fn ill_at(text: &[u8], at: usize) -> Option<Taken>
    requires { at < length text.now }
    ensures value { IfSome result (λ taken. taken ≡ character_from (pieces kind_of (drop at text.now))) }
    ensures code_value { IfSome result (λ taken. taken.code ≡ 0xFFFD) }
{
    let size = ill_size(text, at)?;
    Some(Taken {
        code: 0xFFFD,
        size,
        ill: 1,
    })
}

// Does a modern peak stand at an index?
fn is_peak_at(text: &[u8], at: usize) -> bool
    ensures { result ≡ within 0x1161 0x1175 (taken_from (pieces kind_of (drop at text.now))).code }
{
    matches!(crate::spelled::tail_at(text, at), Some(0x85A1..=0x85B5))
}

// The letter whose second and third byte are `tail`, if the third continues something.
fn letter_of(tail: u32) -> Option<Taken>
    requires le_tail { 0x8480 ≤ tail }
    requires tail_bound { tail ≤ 0x87BF }
    ensures { IfSome result (OfTail tail) }
{
    match tail % 0x100 {
        third @ 0x80..=0xBF => Some(Taken {
            code: 0x1000 + (tail / 0x100 - 0x80) * 64 + (third - 0x80),
            size: 3,
            ill: 0,
        }),
        _ => None,
    }
}

// The letter of the block 1100–11FF at an index, if it joins to nothing after it: it is no modern
// initial, or no modern peak follows.
pub(crate) fn letter_at(text: &[u8], at: usize) -> Option<Taken>
    requires { at < length text.now }
    ensures value { IfSome result (λ taken. taken ≡ character_from (pieces kind_of (drop at text.now))) }
    ensures triple { IfSome result (λ taken. Triple taken.code) }
{
    let Some(tail @ 0x8480..=0x87BF) = crate::spelled::tail_at(text, at) else {
        return None;
    };
    if tail <= 0x8492 && is_peak_at(text, at + 3) {
        return None;
    }
    letter_of(tail)
}
