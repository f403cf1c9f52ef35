// Fast paths for what joins to nothing: an unpaired surrogate, and a letter with no letter after it
// that joins to it.
ghost use Rattle.std.specs.Prelude.{◌≡◌, ◌<◌, length, drop, IfSome};
ghost use Rattle.laws.specs.Ranges.{within};
ghost use Rattle.encodings.specs.Forms.{pieces_in};
ghost use Rattle.utf16.specs.Utf16.{form16};
ghost use Rattle.mending.specs.Characters.{character_in};

use encodings::Taken;

pub(crate) fn is_within(low: u32, high: u32, unit: u32) -> bool
    ensures { result ≡ within low high unit }
{
    (low..=high).contains(&unit)
}

// The unpaired surrogate at an index, as FFFD.
pub(crate) fn unpaired_at(text: &[u16], at: usize) -> Option<Taken>
    requires { at < length text.now }
    ensures value { IfSome result (λ taken. taken ≡ character_in form16 (pieces_in form16 (drop at text.now))) }
    ensures code_bound { IfSome result (λ taken. taken.code < 0x10000) }
{
    match text[at] {
        0xD800..=0xDBFF if is_within(0xDC00, 0xDFFF, utf16::unit_at(text, at + 1)) => None,
        0xD800..=0xDFFF => Some(Taken {
            code: 0xFFFD,
            size: 1,
            ill: 1,
        }),
        _ => None,
    }
}

// The letter of the block 1100–11FF at an index, if it joins to nothing after it: it is no modern
// initial, or no modern peak follows.
pub(crate) fn letter_at(text: &[u16], at: usize) -> Option<Taken>
    requires { at < length text.now }
    ensures value { IfSome result (λ taken. taken ≡ character_in form16 (pieces_in form16 (drop at text.now))) }
    ensures code_bound { IfSome result (λ taken. taken.code < 0x10000) }
{
    match text[at] {
        0x1100..=0x1112 if is_within(0x1161, 0x1175, utf16::unit_at(text, at + 1)) => None,
        unit @ 0x1100..=0x11FF => Some(Taken {
            code: unit as u32,
            size: 1,
            ill: 0,
        }),
        _ => None,
    }
}
