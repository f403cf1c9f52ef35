// The sort of a code point (document 01, 'Sorts of characters'; document 02, #106).
ghost use Rattle.std.specs.Prelude.{◌≡◌, [], ◌∷◌};
ghost use Rattle.answers.specs.Checks.{bad_code_point};
ghost use Rattle.answers.specs.Verdicts.{verdict};
ghost use Rattle.answers.specs.Answers.{answered};
ghost use Rattle.letters.specs.Sorts.{sort_of};

use answers::Refusal;

// What a letter is made of: it is simple, or a cluster of two or three simple letters.
#[derive(Clone, Copy, Debug, PartialEq, Eq)]
pub enum Make {
    Simple,
    Cluster,
}

// A letter's place and age, and its make; a filler's place; the two sorts of syllables; all else.
#[derive(Clone, Copy, Debug, PartialEq, Eq)]
pub enum Sort {
    ModernInitial(Make),
    OldInitial(Make),
    InitialFiller,
    PeakFiller,
    ModernPeak(Make),
    OldPeak(Make),
    ModernFinal(Make),
    OldFinal(Make),
    Lv,
    Lvt,
    Other,
}

// The sort of any number: what is no code point is other. It tests for plain text first, then for
// the syllables, then for the letters. The order of a match's arms does not decide the order of its
// tests, so the letters are a match of their own, with an arm for each run of one sort.
pub fn sort_of(code: u32) -> Sort
    ensures { result ≡ sort_of code }
{
    match code {
        0..=0x10FF => Sort::Other,
        0xAC00..=0xD7A3 => if (code - 0xAC00) % 28 == 0 {
            Sort::Lv
        } else {
            Sort::Lvt
        },
        _ => match code {
            0x1100 => Sort::ModernInitial(Make::Simple),
            0x1101 => Sort::ModernInitial(Make::Cluster),
            0x1102..=0x1103 => Sort::ModernInitial(Make::Simple),
            0x1104 => Sort::ModernInitial(Make::Cluster),
            0x1105..=0x1107 => Sort::ModernInitial(Make::Simple),
            0x1108 => Sort::ModernInitial(Make::Cluster),
            0x1109 => Sort::ModernInitial(Make::Simple),
            0x110A => Sort::ModernInitial(Make::Cluster),
            0x110B..=0x110C => Sort::ModernInitial(Make::Simple),
            0x110D => Sort::ModernInitial(Make::Cluster),
            0x110E..=0x1112 => Sort::ModernInitial(Make::Simple),
            0x1113..=0x113B => Sort::OldInitial(Make::Cluster),
            0x113C => Sort::OldInitial(Make::Simple),
            0x113D => Sort::OldInitial(Make::Cluster),
            0x113E => Sort::OldInitial(Make::Simple),
            0x113F => Sort::OldInitial(Make::Cluster),
            0x1140 => Sort::OldInitial(Make::Simple),
            0x1141..=0x114B => Sort::OldInitial(Make::Cluster),
            0x114C => Sort::OldInitial(Make::Simple),
            0x114D => Sort::OldInitial(Make::Cluster),
            0x114E => Sort::OldInitial(Make::Simple),
            0x114F => Sort::OldInitial(Make::Cluster),
            0x1150 => Sort::OldInitial(Make::Simple),
            0x1151..=0x1153 => Sort::OldInitial(Make::Cluster),
            0x1154..=0x1155 => Sort::OldInitial(Make::Simple),
            0x1156..=0x1158 => Sort::OldInitial(Make::Cluster),
            0x1159 => Sort::OldInitial(Make::Simple),
            0x115A..=0x115E => Sort::OldInitial(Make::Cluster),
            0x115F => Sort::InitialFiller,
            0x1160 => Sort::PeakFiller,
            0x1161 => Sort::ModernPeak(Make::Simple),
            0x1162 => Sort::ModernPeak(Make::Cluster),
            0x1163 => Sort::ModernPeak(Make::Simple),
            0x1164 => Sort::ModernPeak(Make::Cluster),
            0x1165 => Sort::ModernPeak(Make::Simple),
            0x1166 => Sort::ModernPeak(Make::Cluster),
            0x1167 => Sort::ModernPeak(Make::Simple),
            0x1168 => Sort::ModernPeak(Make::Cluster),
            0x1169 => Sort::ModernPeak(Make::Simple),
            0x116A..=0x116C => Sort::ModernPeak(Make::Cluster),
            0x116D..=0x116E => Sort::ModernPeak(Make::Simple),
            0x116F..=0x1171 => Sort::ModernPeak(Make::Cluster),
            0x1172..=0x1173 => Sort::ModernPeak(Make::Simple),
            0x1174 => Sort::ModernPeak(Make::Cluster),
            0x1175 => Sort::ModernPeak(Make::Simple),
            0x1176..=0x119D => Sort::OldPeak(Make::Cluster),
            0x119E => Sort::OldPeak(Make::Simple),
            0x119F..=0x11A7 => Sort::OldPeak(Make::Cluster),
            0x11A8 => Sort::ModernFinal(Make::Simple),
            0x11A9..=0x11AA => Sort::ModernFinal(Make::Cluster),
            0x11AB => Sort::ModernFinal(Make::Simple),
            0x11AC..=0x11AD => Sort::ModernFinal(Make::Cluster),
            0x11AE..=0x11AF => Sort::ModernFinal(Make::Simple),
            0x11B0..=0x11B6 => Sort::ModernFinal(Make::Cluster),
            0x11B7..=0x11B8 => Sort::ModernFinal(Make::Simple),
            0x11B9 => Sort::ModernFinal(Make::Cluster),
            0x11BA => Sort::ModernFinal(Make::Simple),
            0x11BB => Sort::ModernFinal(Make::Cluster),
            0x11BC..=0x11C2 => Sort::ModernFinal(Make::Simple),
            0x11C3..=0x11EA => Sort::OldFinal(Make::Cluster),
            0x11EB => Sort::OldFinal(Make::Simple),
            0x11EC..=0x11EF => Sort::OldFinal(Make::Cluster),
            0x11F0 => Sort::OldFinal(Make::Simple),
            0x11F1..=0x11F8 => Sort::OldFinal(Make::Cluster),
            0x11F9 => Sort::OldFinal(Make::Simple),
            0x11FA..=0x11FF => Sort::OldFinal(Make::Cluster),
            0xA960..=0xA97C => Sort::OldInitial(Make::Cluster),
            0xD7B0..=0xD7C6 => Sort::OldPeak(Make::Cluster),
            0xD7CB..=0xD7FB => Sort::OldFinal(Make::Cluster),
            _ => Sort::Other,
        },
    }
}

// The sort of a code point, or refusal 2.
pub fn sorter(code: u32) -> Result<Sort, Refusal>
    ensures { answered result ≡ verdict (bad_code_point (code ∷ [])) (sort_of code) }
{
    if answers::is_bad(code) {
        return Err(Refusal::BadCodePoint(0));
    }
    Ok(sort_of(code))
}
