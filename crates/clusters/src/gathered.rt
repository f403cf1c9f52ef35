// Gathered form: the letters of a text gathered into clusters, then joined, in one pass into a lent
// buffer.
ghost use Rattle.std.specs.Prelude.{[], ◌∷◌, ◌≤◌, length, ◌≡◌};
ghost use Rattle.joining.specs.Answers.{emitted};
ghost use Rattle.clusters.specs.Simple.{simple_of};
ghost use Rattle.clusters.specs.Inner.{JoinRoom, Joined, TurnRoom, Turned, RestRoom, gathering as machine, state_of};
ghost use Rattle.laws.specs.Writing.{Wrote, Fronts};
ghost use Rattle.answers.specs.Checks.{no_room};
ghost use Rattle.answers.specs.Answers.{checked, Makes};
ghost use Rattle.clusters.specs.Gathering.{gathered};

use crate::gather::Pending;
use crate::simple::letters_of;
use answers::Refusal;
use joining::{Emitted, Joiner};

// What a call that gathers carries from letter to letter: the letters not yet decided, the joiner
// after them, and the index after what is written.
#[derive(Clone, Copy)]
pub(crate) struct Writer {
    pub pending: Pending,
    pub joiner: Joiner,
    pub at: usize,
}

impl Writer {
    // A writer at an index, with nothing open.
    fn new(index: usize) -> Self
        ensures result_value { state_of result ≡ machine.start }
        ensures at_value { result.at ≡ index }
    {
        Writer {
            pending: Pending::Nothing,
            joiner: joining::start(),
            at: index,
        }
    }

    // The joiner takes one code.
    fn put_code(self, code: u32, out: &mut [u32]) -> Self
        requires { JoinRoom self (code ∷ []) out.old }
        ensures { Joined self (code ∷ []) out.old result out.new }
    {
        let step = joining::step(self.joiner, code);
        Writer {
            pending: self.pending,
            joiner: step.joiner,
            at: joining::put(step.out, out, self.at),
        }
    }

    // The joiner takes what was gathered: no code, one or two.
    fn put_codes(self, codes: Emitted, out: &mut [u32]) -> Self
        requires { JoinRoom self (emitted codes) out.old }
        ensures { Joined self (emitted codes) out.old result out.new }
    {
        match codes {
            Emitted::Empty => self,
            Emitted::One(only) => self.put_code(only, out),
            Emitted::Two(first, second) => {
                let next = self.put_code(first, out);
                next.put_code(second, out)
            }
        }
    }

    // A letter is gathered, and the joiner takes what that gives.
    fn put_letter(self, letter: u32, out: &mut [u32]) -> Self
        requires { TurnRoom self (letter ∷ []) out.old }
        ensures { Turned self (letter ∷ []) out.old result out.new }
    {
        let step = self.pending.step(letter);
        let next = Writer {
            pending: step.pending,
            ..self
        };
        next.put_codes(step.out, out)
    }

    // Some letters, one after the other.
    fn put_letters(self, letters: &[u32], out: &mut [u32]) -> Self
        requires { TurnRoom self letters.now out.old }
        ensures { Turned self letters.now out.old result out.new }
    {
        let mut writer = self;
        for letter in letters {
            writer = writer.put_letter(*letter, out);
        }
        writer
    }

    // A code point: its letters, seven at most, are gathered one after the other.
    fn put_gathered(self, code: u32, out: &mut [u32]) -> Self
        requires { TurnRoom self (simple_of code) out.old }
        ensures { Turned self (simple_of code) out.old result out.new }
    {
        let letters = letters_of(code);
        self.put_letters(&letters.codes[..letters.count], out)
    }

    // What is still open at the end of a text: in the gatherer, and then in the joiner.
    fn put_rest(self, out: &mut [u32]) -> usize
        requires { RestRoom self out.old }
        ensures { Wrote out.old self.at (machine.flush (state_of self)) result out.new }
    {
        let next = self.put_codes(self.pending.flush(), out);
        joining::put(joining::flush(next.joiner), out, next.at)
    }
}

// Writes the gathered form of a text to the front of `out`, which has room for it.
fn gathered_into(text: &[u32], out: &mut [u32]) -> usize
    requires { length (gathered text.now) ≤ length out.old }
    ensures { Fronts (gathered text.now) out.old result out.new }
{
    let mut writer = Writer::new(0);
    for code in text {
        writer = writer.put_gathered(*code, out);
    }
    writer.put_rest(out)
}

// How long the gathered form is: what each code point gives, fourteen at most, is written to the
// same place.
fn gathered_count(text: &[u32]) -> usize
    requires { length text.now ≤ 16384 }
    ensures { result ≡ length (gathered text.now) }
{
    let mut scratch = [0u32; 14];
    let mut writer = Writer::new(0);
    let mut total: usize = 0;
    for code in text {
        let next = writer.put_gathered(*code, &mut scratch);
        total += next.at;
        writer = Writer { at: 0, ..next };
    }
    total + writer.put_rest(&mut scratch)
}

// The check of the room: 3. Seven for each code point are always enough, and then nothing is
// counted.
fn check_gathered_room(text: &[u32], room: usize) -> Result<(), Refusal>
    requires { length text.now ≤ 16384 }
    ensures { checked result ≡ no_room room (length (gathered text.now)) }
{
    if 7 * text.len() <= room {
        return Ok(());
    }
    answers::check_room(room, gathered_count(text))
}

// Gathers the letters of a text into clusters and syllables, into a lent buffer: refusals 1, 2 and
// 3.
pub fn gathered_form(text: &[u32], out: &mut [u32]) -> Result<usize, Refusal>
    ensures { Makes gathered text.now out.old result out.new }
{
    answers::check_text(text)?;
    check_gathered_room(text, out.len())?;
    Ok(gathered_into(text, out))
}
