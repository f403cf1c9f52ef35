// The full parts of a text: each one-step part is taken apart again, until nothing changes
// (document 01, 'Syllables').
ghost use Rattle.std.specs.Prelude.{◌≡◌, ◌≤◌, length};
ghost use Rattle.laws.specs.Writing.{Room, Wrote, Fronts};
ghost use Rattle.answers.specs.Checks.{no_room};
ghost use Rattle.answers.specs.Answers.{checked, Makes};
ghost use Rattle.letters.specs.Syllables.{parts_to, parts_of, full_parts};
ghost use Rattle.letters.specs.Answers.{parts_in};

use crate::step::Parts;
use answers::Refusal;

// The full parts of one code point: itself, or the letters of a syllable.
#[derive(Clone, Copy, Debug, PartialEq, Eq)]
pub enum Whole {
    One(u32),
    Two(u32, u32),
    Three(u32, u32, u32),
}

// The full parts of any number, by value: what is no syllable stays.
pub fn full_parts_of(code: u32) -> Whole
    ensures { parts_in result ≡ parts_of code }
{
    match code {
        0xAC00..=0xD7A3 => {
            let index = code - 0xAC00;
            let initial = 0x1100 + index / 588;
            let peak = 0x1161 + index % 588 / 28;
            let last = index % 28;
            if last == 0 {
                Whole::Two(initial, peak)
            } else {
                Whole::Three(initial, peak, 0x11A7 + last)
            }
        }
        _ => Whole::One(code),
    }
}

// Writes the parts of `code`, taken apart down to `depth`, from `at` on, and answers the index
// after them. It calls itself on each of two parts; the depth falls.
fn take_apart(code: u32, out: &mut [u32], at: usize, depth: u32) -> usize
    requires { Room out.old at (parts_to depth code) }
    ensures { Wrote out.old at (parts_to depth code) result out.new }
{
    if depth == 0 {
        out[at] = code;
        return at + 1;
    }
    let parts = crate::step::parts_of(code);
    match parts {
        Parts::One(only) => {
            out[at] = only;
            at + 1
        }
        Parts::Two(first, second) => {
            let next = take_apart(first, out, at, depth - 1);
            take_apart(second, out, next, depth - 1)
        }
    }
}

// How many full parts a code point has: 1, 2 or 3.
fn count_of(code: u32) -> usize
    ensures is { result ≡ length (parts_of code) }
    ensures most { result ≤ 3 }
{
    match code {
        0xAC00..=0xD7A3 => if (code - 0xAC00) % 28 == 0 { 2 } else { 3 },
        _ => 1,
    }
}

// How many full parts a text has.
fn parts_count(text: &[u32]) -> usize
    requires { length text.now ≤ 16384 }
    ensures { result ≡ length (full_parts text.now) }
{
    text.iter().map(|code| count_of(*code)).sum()
}

// The check of the room: 3. Three for each code point are always enough, and
// then nothing is counted.
fn check_parts_room(text: &[u32], room: usize) -> Result<(), Refusal>
    requires { length text.now ≤ 16384 }
    ensures { checked result ≡ no_room room (length (full_parts text.now)) }
{
    if 3 * text.len() <= room {
        return Ok(());
    }
    answers::check_room(room, parts_count(text))
}

// Writes the full parts of a text to the front of `out`, which has room for them.
fn write_parts(text: &[u32], out: &mut [u32]) -> usize
    requires { length (full_parts text.now) ≤ length out.old }
    ensures { Fronts (full_parts text.now) out.old result out.new }
{
    let mut at: usize = 0;
    for &code in text {
        at = take_apart(code, out, at, 2);
    }
    at
}

// Takes a text apart into a lent buffer: refusals 1, 2 and 3.
pub fn full_parts(text: &[u32], out: &mut [u32]) -> Result<usize, Refusal>
    ensures { Makes full_parts text.now out.old result out.new }
{
    answers::check_text(text)?;
    check_parts_room(text, out.len())?;
    Ok(write_parts(text, out))
}
