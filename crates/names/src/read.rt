// Reading a name: a search for the three strings that is left as soon as all three fit (document
// 01, 'Names').
ghost use Rattle.std.specs.Prelude.{◌≡◌, ◌≤◌, ◌+◌, ◌*◌, true, false, length, drop, MatchOption};
ghost use Rattle.laws.specs.Strings.{begins, same};
ghost use Rattle.names.specs.Naming.{ReadsName};
ghost use Rattle.names.specs.Inner.{vowel_first, followed, FoundIs, Inside};
ghost use Rattle.answers.specs.Checks.{passes, takes_bytes};

use crate::strings::{self, Indices};
use answers::Refusal;

// Does what is left of a name begin with a vowel letter? Every peak's string does, and no final's.
fn vowel_first(rest: &[u8]) -> bool
    ensures { result ≡ vowel_first rest.now }
{
    matches!(
        rest.first(),
        Some(b'A' | b'E' | b'I' | b'O' | b'U' | b'W' | b'Y')
    )
}

// Does what is left of a name go on with a string? A string has at most three letters, which are
// compared one by one: with `starts_with`, or a loop, reading a name misses its bar of speed.
fn goes_on(rest: &[u8], part: &[u8]) -> bool
    requires { length part.now ≤ 3 }
    ensures { result ≡ begins part.now rest.now }
{
    if rest.len() < part.len() {
        return false;
    }
    match part {
        [] => true,
        [first] => rest[0] == *first,
        [first, second] => rest[0] == *first && rest[1] == *second,
        [first, second, third, ..] => {
            rest[0] == *first && rest[1] == *second && rest[2] == *third
        }
    }
}

// Is what is left of a name a string, with nothing after it?
fn ends(rest: &[u8], part: &[u8]) -> bool
    requires { length part.now ≤ 3 }
    ensures { result ≡ same part.now rest.now }
{
    if rest.len() != part.len() {
        return false;
    }
    goes_on(rest, part)
}

// What stands after a string, if what is left of a name goes on with the string, and after it with
// a vowel letter, or with none. If not, the next table need not be searched.
fn after<'a>(rest: &'a [u8], part: &[u8], vowel: bool) -> Option<&'a [u8]>
    requires { length part.now ≤ 3 }
    ensures { MatchOption result (followed part.now vowel rest.now ≡ false) (λ left. (followed part.now vowel rest.now ≡ true) × (left.now ≡ drop (length part.now) rest.now)) }
{
    if !goes_on(rest, part) {
        return None;
    }
    let left = &rest[part.len()..];
    (vowel_first(left) == vowel).then_some(left)
}

// The three indices whose strings are the name. An inner table is searched only if the outer string
// fits, and the search is left as soon as all three fit.
fn search(name: &[u8]) -> Option<Indices>
    ensures { FoundIs name.now result }
{
    let rest = name.strip_prefix(b"HANGUL SYLLABLE ")?;
    'search: {
        for (initial, row) in strings::initials().iter().enumerate() {
            let Some(rest) = after(rest, strings::letters(row), true) else {
                continue;
            };
            for (peak, row) in strings::peaks().iter().enumerate() {
                let Some(rest) = after(rest, strings::letters(row), false) else {
                    continue;
                };
                for (last, row) in strings::finals().iter().enumerate() {
                    if ends(rest, strings::letters(row)) {
                        let found = Indices {
                            initial,
                            peak,
                            last,
                        };
                        break 'search Some(found);
                    }
                }
            }
        }
        None
    }
}

// The syllable of three indices.
fn syllable_by(indices: Indices) -> u32
    requires { Inside indices }
    ensures { result ≡ 0xAC00 + indices.initial * 588 + indices.peak * 28 + indices.last }
{
    (0xAC00 + indices.initial * 588 + indices.peak * 28 + indices.last) as u32
}

// A name that has passed its check: refusal 5 or the syllable.
fn read_checked(name: &[u8]) -> Result<u32, Refusal>
    requires { takes_bytes name.now ≡ passes }
    ensures { ReadsName name.now result }
{
    match search(name) {
        Some(indices) => Ok(syllable_by(indices)),
        None => Err(Refusal::NoName),
    }
}

// Reads a name: refusals 1 and 5.
pub fn read_name(name: &[u8]) -> Result<u32, Refusal>
    ensures { ReadsName name.now result }
{
    answers::check_bytes(name)?;
    read_checked(name)
}
