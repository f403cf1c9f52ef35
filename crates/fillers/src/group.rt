// The filler group at an index of a text, and its syllable (document 01, 'Filler groups').
ghost use Rattle.std.specs.Prelude.{◌≡◌, drop};
ghost use Rattle.fillers.specs.Groups.{as_initial, as_peak, as_final};
ghost use Rattle.laws.specs.Options.{as_answer};
ghost use Rattle.fillers.specs.Inner.{number_or_none, group_at, syllable_in};

use crate::pairs::{NONE, pairs};

// A number of the table, if it stands for one.
fn number_or_none(number: u8) -> Option<u32>
    ensures { result ≡ number_or_none number }
{
    if number == NONE {
        return None;
    }
    Some(u32::from(number))
}

// I of an initial.
fn initial_of(code: u32) -> Option<u32>
    ensures { result ≡ as_answer (as_initial code) }
{
    let table = pairs();
    match code {
        0x3131..=0x314E => number_or_none(table[2 * (code - 0x3131) as usize]),
        _ => None,
    }
}

// P of a peak.
fn peak_of(code: u32) -> Option<u32>
    ensures { result ≡ as_answer (as_peak code) }
{
    match code {
        0x314F..=0x3163 => Some(code - 0x314F),
        _ => None,
    }
}

// F of a final, 0 for the filler that stands for no final.
fn final_of(code: u32) -> Option<u32>
    ensures { result ≡ as_answer (as_final code) }
{
    let table = pairs();
    match code {
        0x3164 => Some(0),
        0x3131..=0x314E => number_or_none(table[2 * (code - 0x3131) as usize + 1]),
        _ => None,
    }
}

// The syllable of the group that begins at an index, if one begins there.
pub(crate) fn group_at(text: &[u32], at: usize) -> Option<u32>
    ensures { result ≡ syllable_in (group_at (drop at text.now)) }
{
    if text.len() <= at {
        return None;
    }
    if text.len() - at < 4 {
        return None;
    }
    if text[at] != 0x3164 {
        return None;
    }
    let initial = initial_of(text[at + 1])?;
    let peak = peak_of(text[at + 2])?;
    let last = final_of(text[at + 3])?;
    Some(0xAC00 + initial * 588 + peak * 28 + last)
}
