// Turning the filler groups of a text into a lent buffer (document 01, 'Filler groups').
ghost use Rattle.std.specs.Prelude.{◌≡◌, ◌≤◌, length};
ghost use Rattle.laws.specs.Writing.{Fronts};
ghost use Rattle.answers.specs.Checks.{no_room};
ghost use Rattle.answers.specs.Answers.{checked, Makes};
ghost use Rattle.fillers.specs.Groups.{turned};

use crate::group::group_at;
use answers::Refusal;

// Writes the text with its groups turned to the front of `out`, which has room for it. Its steps
// are of one or of four, which no `for` has.
fn turn_into(text: &[u32], out: &mut [u32]) -> usize
    requires { length (turned text.now) ≤ length out.old }
    ensures { Fronts (turned text.now) out.old result out.new }
{
    let mut read = 0;
    let mut written = 0;
    while read < text.len() {
        match group_at(text, read) {
            None => {
                out[written] = text[read];
                read += 1;
            }
            Some(syllable) => {
                out[written] = syllable;
                read += 4;
            }
        }
        written += 1;
    }
    written
}

// How long the text with its groups turned is, by the same steps.
fn turned_count(text: &[u32]) -> usize
    ensures { result ≡ length (turned text.now) }
{
    let mut read = 0;
    let mut count = 0;
    while read < text.len() {
        match group_at(text, read) {
            None => read += 1,
            Some(_) => read += 4,
        }
        count += 1;
    }
    count
}

// The check of the room: 3. As many as the text has are always enough, and then nothing is counted.
fn check_turn_room(text: &[u32], room: usize) -> Result<(), Refusal>
    ensures { checked result ≡ no_room room (length (turned text.now)) }
{
    if text.len() <= room {
        return Ok(());
    }
    answers::check_room(room, turned_count(text))
}

// Turns the filler groups of a text into a lent buffer: refusals 1, 2 and 3.
pub fn turn(text: &[u32], out: &mut [u32]) -> Result<usize, Refusal>
    ensures { Makes turned text.now out.old result out.new }
{
    answers::check_text(text)?;
    check_turn_room(text, out.len())?;
    Ok(turn_into(text, out))
}
