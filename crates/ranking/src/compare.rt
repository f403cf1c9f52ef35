// Comparing two texts item by item as they are read: the state goes in by value and comes back. The
// step knows only what stands in front of each text, so it serves code points and bytes.
ghost use Rattle.std.specs.Prelude.{◌≡◌, [], true, false, cond};
ghost use Rattle.ranking.specs.Inner.{rank_from, goes_on_as, is_apart_as, next_of, done_with, both_with, zero_with, Steps, is_zero_as, Closed, WithinLimit, Advances};
ghost use Rattle.ranking.specs.declared.compare.State.TheVariants.{Apart, Zeros, Number};
ghost use Rattle.ranking.specs.declared.compare.Front.TheVariants.{Digit, Other};

use std::cmp::Ordering;

// How far ranking has come in the two texts.
#[derive(Clone, Copy, Debug, PartialEq, Eq)]
pub(crate) struct At {
    pub state: State,
    pub first: usize,
    pub second: usize,
}

// What is known then, and which of the two fronts have passed.
#[derive(Clone, Copy, Debug, PartialEq, Eq)]
pub(crate) struct Move {
    pub state: State,
    pub first: bool,
    pub second: bool,
}

// What is known so far. `Apart`: all items were equal, and an item begins. `Zeros`: the same, but a
// number is open in both, and only zeros of it have passed. `Number`: a number is open in both,
// equally many digits of both have passed, the first of them not zero, and these digits compare so.
// `Done`: the answer.
#[derive(Clone, Copy, Debug, PartialEq, Eq)]
pub(crate) enum State {
    Apart,
    Zeros,
    Number(Ordering),
    Done(Ordering),
}

// The front, and how much of the text it takes.
#[derive(Clone, Copy, Debug, PartialEq, Eq)]
pub(crate) struct Next {
    pub front: Front,
    pub size: usize,
}

// What stands in front of what is left of a label: nothing, a digit by its value, or another code
// point.
#[derive(Clone, Copy, Debug, PartialEq, Eq)]
pub(crate) enum Front {
    End,
    Digit(u32),
    Other(u32),
}

impl At {
    // Is the answer still to be found?
    pub(crate) fn goes_on(self) -> bool
        ensures { result ≡ goes_on_as self.state }
    {
        !matches!(self.state, State::Done(_))
    }

    // Does an item begin?
    pub(crate) fn is_apart(self) -> bool
        ensures { result ≡ is_apart_as self.state }
    {
        matches!(self.state, State::Apart)
    }

    // The answer, if it is found; else that of two labels that end here.
    pub(crate) fn settled(self) -> Ordering
        ensures { result ≡ rank_from self.state [] [] }
    {
        match self.state {
            State::Apart => Ordering::Equal,
            State::Zeros => Ordering::Equal,
            State::Number(order) => order,
            State::Done(order) => order,
        }
    }

    // A step, from where the two fronts stand to where what is left then begins.
    pub(crate) fn advance(self, first: Next, second: Next) -> At
        requires { WithinLimit self first second }
        ensures { Advances self first second result }
    {
        let taken = self.state.step(first.front, second.front);
        At {
            state: taken.state,
            first: self.first + passing(taken.first, first.size),
            second: self.second + passing(taken.second, second.size),
        }
    }
}

// A character of so many elements, as a front.
pub(crate) fn next_of(code: u32, size: usize) -> Next
    ensures { result ≡ next_of code size }
{
    if size == 0 {
        return Next {
            front: Front::End,
            size: 0,
        };
    }
    match code {
        0x30..=0x39 => Next {
            front: Front::Digit(code - 0x30),
            size,
        },
        _ => Next {
            front: Front::Other(code),
            size,
        },
    }
}

impl State {
    // One step: what is known then, and which fronts have passed.
    fn step(self, first: Front, second: Front) -> Move
        ensures { Steps self first second result }
    {
        match self {
            State::Apart => apart(first, second),
            State::Zeros => zeros(first, second),
            State::Number(order) => number(order, first, second),
            State::Done(order) => Move::done(order),
        }
    }
}

impl Front {
    // Is it the digit zero?
    fn is_zero(self) -> bool
        ensures { result ≡ is_zero_as self }
    {
        matches!(self, Front::Digit(0))
    }
}

impl Move {
    // The answer is found, and nothing has passed.
    fn done(order: Ordering) -> Move
        ensures { result ≡ done_with order }
    {
        Move {
            state: State::Done(order),
            first: false,
            second: false,
        }
    }

    // Both fronts have passed.
    fn both(state: State) -> Move
        ensures { result ≡ both_with state }
    {
        Move {
            state,
            first: true,
            second: true,
        }
    }

    // A zero has passed in front of the first number, or else of the second.
    fn zero(first: bool, second: bool) -> Move
        ensures { result ≡ zero_with first second }
    {
        Move {
            state: State::Zeros,
            first,
            second,
        }
    }
}

// Two code points that are no digits.
fn others(first: u32, second: u32) -> Move
    ensures { Steps Apart (Other first) (Other second) result }
{
    let order = crate::order::compared(first, second);
    match order {
        Ordering::Less => Move::done(Ordering::Less),
        Ordering::Equal => Move::both(State::Apart),
        Ordering::Greater => Move::done(Ordering::Greater),
    }
}

// Two digits, with which two numbers begin.
fn digits(first: u32, second: u32) -> Move
    ensures { Steps Apart (Digit first) (Digit second) result }
{
    if first == 0 {
        return Move::zero(true, false);
    }
    if second == 0 {
        return Move::zero(false, true);
    }
    Move::both(State::Number(crate::order::compared(first, second)))
}

// Two items begin: the end before all, numbers before code points.
fn apart(first: Front, second: Front) -> Move
    ensures { Steps Apart first second result }
{
    match first {
        Front::End => match second {
            Front::End => Move::done(Ordering::Equal),
            _ => Move::done(Ordering::Less),
        },
        Front::Digit(digit) => match second {
            Front::End => Move::done(Ordering::Greater),
            Front::Digit(other) => digits(digit, other),
            Front::Other(_) => Move::done(Ordering::Less),
        },
        Front::Other(code) => match second {
            Front::Other(other) => others(code, other),
            _ => Move::done(Ordering::Greater),
        },
    }
}

// Two numbers of one length have ended: they decide, or else what follows.
fn ended(order: Ordering, first: Front, second: Front) -> Move
    requires closed { Closed first }
    requires closed_2 { Closed second }
    ensures { Steps (Number order) first second result }
{
    match order {
        Ordering::Less => Move::done(Ordering::Less),
        Ordering::Equal => apart(first, second),
        Ordering::Greater => Move::done(Ordering::Greater),
    }
}

// Two numbers go on: the longer one is the greater, and of two as long the first digits that differ
// decide.
fn number(order: Ordering, first: Front, second: Front) -> Move
    ensures { Steps (Number order) first second result }
{
    match first {
        Front::Digit(digit) => match second {
            Front::Digit(other) => Move::both(State::Number(crate::order::followed(
                order,
                crate::order::compared(digit, other),
            ))),
            _ => Move::done(Ordering::Greater),
        },
        _ => match second {
            Front::Digit(_) => Move::done(Ordering::Less),
            _ => ended(order, first, second),
        },
    }
}

// Zeros in front of two numbers pass.
fn zeros(first: Front, second: Front) -> Move
    ensures { Steps Zeros first second result }
{
    if first.is_zero() {
        return Move::zero(true, false);
    }
    if second.is_zero() {
        return Move::zero(false, true);
    }
    number(Ordering::Equal, first, second)
}

// How much passes.
fn passing(passes: bool, size: usize) -> usize
    ensures { result ≡ cond passes size 0 }
{
    if passes { size } else { 0 }
}
