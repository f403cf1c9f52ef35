// Simple form: full parts, then each code replaced by the letters of its row (document 01, 'Simple
// letters and clusters').
ghost use Rattle.std.specs.Prelude.{◌≡◌, ◌≤◌, length, replicate};
ghost use Rattle.laws.specs.Writing.{Room, Wrote, Fronts};
ghost use Rattle.answers.specs.Checks.{no_room};
ghost use Rattle.answers.specs.Answers.{checked, Makes};
ghost use Rattle.clusters.specs.Table.{letters_of};
ghost use Rattle.clusters.specs.Simple.{simple, simple_of};
ghost use Rattle.clusters.specs.Rows.{letters_by};

use crate::table::{Row, row_at};
use answers::Refusal;
use letters::Whole;

// Writes the letters of a row from `at` on, and answers the index after them.
fn put_row(row: Row, out: &mut [u32], at: usize) -> usize
    requires { Room out.old at (letters_by row) }
    ensures { Wrote out.old at (letters_by row) result out.new }
{
    out[at] = row.first;
    if row.second == 0 {
        return at + 1;
    }
    out[at + 1] = row.second;
    if row.third == 0 {
        return at + 2;
    }
    out[at + 2] = row.third;
    at + 3
}

// Writes the letters of one part of a code point: those of its row.
fn put_part(part: u32, out: &mut [u32], at: usize) -> usize
    requires { Room out.old at (letters_of part) }
    ensures { Wrote out.old at (letters_of part) result out.new }
{
    put_row(row_at(part), out, at)
}

// Writes the simple form of one code point: the letters of each of its full parts.
fn put_simple(code: u32, out: &mut [u32], at: usize) -> usize
    requires { Room out.old at (simple_of code) }
    ensures { Wrote out.old at (simple_of code) result out.new }
{
    let parts = letters::full_parts_of(code);
    match parts {
        Whole::One(only) => put_part(only, out, at),
        Whole::Two(first, second) => {
            let next = put_part(first, out, at);
            put_part(second, out, next)
        }
        Whole::Three(first, second, third) => {
            let next = put_part(first, out, at);
            let last = put_part(second, out, next);
            put_part(third, out, last)
        }
    }
}

// The letters of a code point, seven at most, from the front, and how many they are: an array with
// its length, since the library allocates nothing.
#[derive(Clone, Copy, Debug, PartialEq, Eq)]
pub(crate) struct Letters {
    pub codes: [u32; 7],
    pub count: usize,
}

// The letters of a code point by value.
pub(crate) fn letters_of(code: u32) -> Letters
    ensures { Wrote (replicate 7 0) 0 (simple_of code) result.count result.codes }
{
    let mut codes = [0u32; 7];
    let count = put_simple(code, &mut codes, 0);
    Letters { codes, count }
}

// Writes the simple form of a text to the front of `out`, which has room for it.
fn simple_into(text: &[u32], out: &mut [u32]) -> usize
    requires { length (simple text.now) ≤ length out.old }
    ensures { Fronts (simple text.now) out.old result out.new }
{
    let mut at: usize = 0;
    for code in text {
        at = put_simple(*code, out, at);
    }
    at
}

// How long the simple form is.
fn simple_count(text: &[u32]) -> usize
    requires { length text.now ≤ 16384 }
    ensures { result ≡ length (simple text.now) }
{
    let mut count: usize = 0;
    for code in text {
        count += letters_of(*code).count;
    }
    count
}

// The check of the room: 3. Seven for each code point are always enough, and then nothing is
// counted.
fn check_simple_room(text: &[u32], room: usize) -> Result<(), Refusal>
    requires { length text.now ≤ 16384 }
    ensures { checked result ≡ no_room room (length (simple text.now)) }
{
    if 7 * text.len() <= room {
        return Ok(());
    }
    answers::check_room(room, simple_count(text))
}

// Takes a text apart into simple letters, into a lent buffer: refusals 1, 2 and 3.
pub fn simple_form(text: &[u32], out: &mut [u32]) -> Result<usize, Refusal>
    ensures { Makes simple text.now out.old result out.new }
{
    answers::check_text(text)?;
    check_simple_room(text, out.len())?;
    Ok(simple_into(text, out))
}
