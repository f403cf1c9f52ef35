// Fast path for a syllable that is spelled in letters of the block 1100–11FF. It is found by its
// bytes.
ghost use Rattle.std.specs.Prelude.{◌≡◌, drop, IfSome, MatchOption};
ghost use Rattle.utf8.specs.Reading.{taken_from};
ghost use Rattle.mending.specs.Inner.{Tail, last_of, Triple};
ghost use Rattle.encodings.specs.Pieces.{pieces};
ghost use Rattle.utf8.specs.Table37.{kind_of};
ghost use Rattle.mending.specs.Characters.{character_from};

use encodings::Taken;

// The second and third byte of a letter as one number, if its first byte is E1. The length of the
// text is tested by itself: a caller that looks for letter after letter then tests it once.
pub(crate) fn tail_at(text: &[u8], at: usize) -> Option<u32>
    ensures { MatchOption result (Tail text.now at 0) (Tail text.now at) }
{
    if text.len() < 3 {
        return None;
    }
    if text.len() - 3 < at {
        return None;
    }
    if text[at] != 0xE1 {
        return None;
    }
    Some(text[at + 1] as u32 * 0x100 + text[at + 2] as u32)
}

// F of the final at an index, which is 0 without a final: 11A8 to 11BF are E1 86 A8 to E1 86 BF,
// and 11C0 to 11C2 are E1 87 80 to E1 87 82.
fn final_at(text: &[u8], at: usize) -> u32
    ensures { result ≡ last_of (taken_from (pieces kind_of (drop at text.now))).code }
{
    match tail_at(text, at) {
        Some(tail @ 0x86A8..=0x86BF) => tail - 0x86A7,
        Some(tail @ 0x8780..=0x8782) => tail - 0x8780 + 25,
        _ => 0,
    }
}

// The syllable of an initial, a peak and perhaps a final at an index.
pub(crate) fn spelled_at(text: &[u8], at: usize) -> Option<Taken>
    ensures value { IfSome result (λ taken. taken ≡ character_from (pieces kind_of (drop at text.now))) }
    ensures triple { IfSome result (λ taken. Triple taken.code) }
{
    let Some(initial @ 0x8480..=0x8492) = tail_at(text, at) else {
        return None;
    };
    let Some(peak @ 0x85A1..=0x85B5) = tail_at(text, at + 3) else {
        return None;
    };
    let lv = 0xAC00 + (initial - 0x8480) * 588 + (peak - 0x85A1) * 28;
    let last = final_at(text, at + 6);
    Some(Taken {
        code: lv + last,
        size: if last == 0 { 6 } else { 9 },
        ill: 0,
    })
}
