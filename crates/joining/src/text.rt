// Joining a text of code points into a lent buffer (document 01, 'Syllables').
ghost use Rattle.std.specs.Prelude.{◌≡◌, ◌≤◌, length};
ghost use Rattle.laws.specs.Writing.{Fronts};
ghost use Rattle.answers.specs.Checks.{no_room};
ghost use Rattle.answers.specs.Answers.{checked, Makes};
ghost use Rattle.joining.specs.Joining.{join};
ghost use Rattle.joining.specs.Answers.{emitted};

use crate::joiner::Emitted;
use answers::Refusal;

// How many code points a step wrote.
fn count_of(out: Emitted) -> usize
    ensures { result ≡ length (emitted out) }
{
    match out {
        Emitted::Empty => 0,
        Emitted::One(_) => 1,
        Emitted::Two(_, _) => 2,
    }
}

// How long the joined text is.
fn joined_count(text: &[u32]) -> usize
    requires { length text.now ≤ 16384 }
    ensures { result ≡ length (join text.now) }
{
    let mut joiner = crate::joiner::start();
    let mut count: usize = 0;
    for code in text {
        let step = crate::joiner::step(joiner, *code);
        joiner = step.joiner;
        count += count_of(step.out);
    }
    count + count_of(crate::joiner::flush(joiner))
}

// The check of the room: 3. As many as the text has are always enough, and then nothing is counted.
fn check_join_room(text: &[u32], room: usize) -> Result<(), Refusal>
    requires { length text.now ≤ 16384 }
    ensures { checked result ≡ no_room room (length (join text.now)) }
{
    if text.len() <= room {
        return Ok(());
    }
    answers::check_room(room, joined_count(text))
}

// Writes the joined text to the front of `out`, which has room for it.
fn write_joined(text: &[u32], out: &mut [u32]) -> usize
    requires { length (join text.now) ≤ length out.old }
    ensures { Fronts (join text.now) out.old result out.new }
{
    let mut joiner = crate::joiner::start();
    let mut at: usize = 0;
    for &code in text {
        let step = crate::joiner::step(joiner, code);
        joiner = step.joiner;
        at = crate::joiner::put(step.out, out, at);
    }
    crate::joiner::put(crate::joiner::flush(joiner), out, at)
}

// Joins a text into a lent buffer: refusals 1, 2 and 3.
pub fn join(text: &[u32], out: &mut [u32]) -> Result<usize, Refusal>
    ensures { Makes join text.now out.old result out.new }
{
    answers::check_text(text)?;
    check_join_room(text, out.len())?;
    Ok(write_joined(text, out))
}
