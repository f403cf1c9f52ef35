// One step of taking a syllable apart (document 01, 'Syllables').
ghost use Rattle.std.specs.Prelude.{◌≡◌, [], ◌∷◌};
ghost use Rattle.answers.specs.Checks.{bad_code_point};
ghost use Rattle.answers.specs.Verdicts.{verdict};
ghost use Rattle.letters.specs.Syllables.{one_step};
ghost use Rattle.letters.specs.Answers.{codes_in, stepped};

use answers::Refusal;

// What one step makes of a code point: itself, or two parts.
#[derive(Clone, Copy, Debug, PartialEq, Eq)]
pub enum Parts {
    One(u32),
    Two(u32, u32),
}

// The one step of any number: what is no syllable stays.
pub fn parts_of(code: u32) -> Parts
    ensures { codes_in result ≡ one_step code }
{
    match code {
        0xAC00..=0xD7A3 => {
            let index = code - 0xAC00;
            let last = index % 28;
            if last == 0 {
                Parts::Two(0x1100 + index / 588, 0x1161 + index % 588 / 28)
            } else {
                Parts::Two(0xAC00 + index / 28 * 28, 0x11A7 + last)
            }
        }
        _ => Parts::One(code),
    }
}

// The one step of a code point, or refusal 2.
pub fn one_step(code: u32) -> Result<Parts, Refusal>
    ensures { stepped result ≡ verdict (bad_code_point (code ∷ [])) (one_step code) }
{
    if answers::is_bad(code) {
        return Err(Refusal::BadCodePoint(0));
    }
    Ok(parts_of(code))
}
