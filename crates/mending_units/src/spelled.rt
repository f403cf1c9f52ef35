// Fast path for a syllable that is spelled in letters of the block 1100–11FF: each letter is one
// unit.
ghost use Rattle.std.specs.Prelude.{◌≡◌, ◌<◌, drop, IfSome};
ghost use Rattle.encodings.specs.Forms.{pieces_in};
ghost use Rattle.utf16.specs.Utf16.{form16};
ghost use Rattle.mending.specs.Characters.{character_in};

use encodings::Taken;

// The syllable of an initial, a peak and perhaps a final at an index.
pub(crate) fn spelled_at(text: &[u16], at: usize) -> Option<Taken>
    ensures value { IfSome result (λ taken. taken ≡ character_in form16 (pieces_in form16 (drop at text.now))) }
    ensures code_bound { IfSome result (λ taken. taken.code < 0x10000) }
{
    let initial @ 0x1100..=0x1112 = utf16::unit_at(text, at) else {
        return None;
    };
    let peak @ 0x1161..=0x1175 = utf16::unit_at(text, at + 1) else {
        return None;
    };
    let lv = 0xAC00 + (initial - 0x1100) * 588 + (peak - 0x1161) * 28;
    match utf16::unit_at(text, at + 2) {
        last @ 0x11A8..=0x11C2 => Some(Taken {
            code: lv + (last - 0x11A7),
            size: 3,
            ill: 0,
        }),
        _ => Some(Taken {
            code: lv,
            size: 2,
            ill: 0,
        }),
    }
}
