// The joiner: a record by value of what is still open, its step, and what a step writes (document
// 01, 'Syllables').
ghost use Rattle.laws.specs.Writing.{fitted, Wrote};
ghost use Rattle.joining.specs.Answers.{emitted, Stepped};
ghost use Rattle.std.specs.Prelude.{◌≡◌, ◌++◌};
ghost use Rattle.joining.specs.Roles.{nonzero};
ghost use Rattle.joining.specs.Joining.{opens, held, meets, unless};
ghost use Rattle.joining.specs.declared.joiner.Open.TheVariants.{Nothing};

use crate::role::Role;

// What is still open: nothing, an initial, or an LV.
#[derive(Clone, Copy, Debug, PartialEq, Eq)]
pub enum Open {
    Nothing,
    Initial(u32),
    Lv(u32),
}

// The joiner carries what is open.
#[derive(Clone, Copy, Debug, PartialEq, Eq)]
pub struct Joiner {
    pub state: Open,
}

// What a step writes: at most two code points.
#[derive(Clone, Copy, Debug, PartialEq, Eq)]
pub enum Emitted {
    Empty,
    One(u32),
    Two(u32, u32),
}

// A step's answer: the joiner after it, and what it writes.
#[derive(Clone, Copy, Debug, PartialEq, Eq)]
pub struct Outcome {
    pub joiner: Joiner,
    pub out: Emitted,
}

// Writes what a step emits from `at` on, and answers the index after it. If there is no room for
// all of it nothing is written, and the answer is `at`.
pub fn put(emit: Emitted, out: &mut [u32], at: usize) -> usize
    ensures { Wrote out.old at (fitted (emitted emit) out.old at) result out.new }
{
    match emit {
        Emitted::Empty => at,
        Emitted::One(only) => {
            if out.len() <= at {
                return at;
            }
            out[at] = only;
            at + 1
        }
        Emitted::Two(first, second) => {
            if out.len() <= at {
                return at;
            }
            if out.len() - at < 2 {
                return at;
            }
            out[at] = first;
            out[at + 1] = second;
            at + 2
        }
    }
}

// What a code point leaves open.
fn opened(code: u32) -> Open
    ensures { result ≡ opens code }
{
    let role = crate::role::role_of(code);
    match role {
        Role::Initial => Open::Initial(code),
        Role::Peak => Open::Nothing,
        Role::Final => Open::Nothing,
        Role::Lv => Open::Lv(code),
        Role::None => Open::Nothing,
    }
}

// What is open and the next code point join to, if they join.
fn met(state: Open, code: u32) -> Option<u32>
    ensures { result ≡ nonzero (meets state code) }
{
    match state {
        Open::Nothing => None,
        Open::Initial(initial) => crate::role::joined(initial, code),
        Open::Lv(syllable) => crate::role::joined(syllable, code),
    }
}

// What is open, written out.
fn written(state: Open) -> Emitted
    ensures { emitted result ≡ held state }
{
    match state {
        Open::Nothing => Emitted::Empty,
        Open::Initial(initial) => Emitted::One(initial),
        Open::Lv(syllable) => Emitted::One(syllable),
    }
}

// What is open, and then a code point.
fn written_before(state: Open, code: u32) -> Emitted
    ensures { emitted result ≡ held state ++ unless Nothing code }
{
    match state {
        Open::Nothing => Emitted::One(code),
        Open::Initial(initial) => Emitted::Two(initial, code),
        Open::Lv(syllable) => Emitted::Two(syllable, code),
    }
}

// What was open, and then a code point unless it stays open itself.
fn parted(state: Open, next: Open, code: u32) -> Emitted
    ensures { emitted result ≡ held state ++ unless next code }
{
    match next {
        Open::Nothing => written_before(state, code),
        Open::Initial(_) => written(state),
        Open::Lv(_) => written(state),
    }
}

// A syllable that was joined, unless it stays open.
fn united(next: Open, code: u32) -> Emitted
    ensures { emitted result ≡ unless next code }
{
    parted(Open::Nothing, next, code)
}

// A joiner with nothing open.
pub fn start() -> Joiner
    ensures { result.state ≡ Nothing }
{
    Joiner {
        state: Open::Nothing,
    }
}

// Takes the next code point: what it writes, and the joiner after it.
pub fn step(joiner: Joiner, code: u32) -> Outcome
    ensures { Stepped joiner.state code result }
{
    let state = joiner.state;
    match met(state, code) {
        Some(syllable) => {
            let made = opened(syllable);
            Outcome {
                joiner: Joiner { state: made },
                out: united(made, syllable),
            }
        }
        None => {
            let next = opened(code);
            Outcome {
                joiner: Joiner { state: next },
                out: parted(state, next, code),
            }
        }
    }
}

// What is still open at the end of a text.
pub fn flush(joiner: Joiner) -> Emitted
    ensures { emitted result ≡ held joiner.state }
{
    let state = joiner.state;
    written(state)
}
