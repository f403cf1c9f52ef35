// Gathering letters into clusters, one letter at a time: what is not yet decided goes in by value
// and comes back.
ghost use Rattle.std.specs.Prelude.{◌≡◌, List, [], ◌∷◌, ◌++◌, ℕ};
ghost use Rattle.joining.specs.Answers.{emitted};
ghost use Rattle.clusters.specs.Gathering.{two_of, three_of};
ghost use Rattle.laws.specs.Options.{as_answer};
ghost use Rattle.clusters.specs.Inner.{Covers, SearchedFrom, SearchedIn, gather_flush, GatherStepped};
ghost use Rattle.clusters.specs.declared.gather.Pending.TheVariants.{Two};

use crate::table::{Row, row_at};
use joining::Emitted;

// The codes from `low` on, before `high`, and those from `outer` on, before `end`.
#[derive(Clone, Copy, Debug, PartialEq, Eq)]
pub(crate) struct Span {
    pub low: u32,
    pub high: u32,
    pub outer: u32,
    pub end: u32,
}

// A step's answer: what is not decided after it, and what it writes.
#[derive(Clone, Copy)]
pub(crate) struct Gathered {
    pub pending: Pending,
    pub out: Emitted,
}

// The letters not yet decided: at most two, since no cluster has more than three.
#[derive(Clone, Copy, Debug, PartialEq, Eq)]
pub(crate) enum Pending {
    Nothing,
    One(u32),
    Two(u32, u32),
}

// No code.
fn empty_span() -> Span
    ensures { result ≡ record { low = 0; high = 0; outer = 0; end = 0 } }
{
    Span {
        low: 0,
        high: 0,
        outer: 0,
        end: 0,
    }
}

impl Span {
    // Where the clusters that begin with a letter stand: among those of its own place. All their
    // letters stand from `low` on, before `high`.
    fn of(letter: u32) -> Self
        ensures { Covers (letter ∷ []) result }
    {
        match letter {
            0x1100..=0x115E => Span {
                low: 0x1100,
                high: 0x115F,
                outer: 0xA960,
                end: 0xA97D,
            },
            0x1161..=0x11A7 => Span {
                low: 0x1161,
                high: 0x11A8,
                outer: 0xD7B0,
                end: 0xD7C7,
            },
            0x11A8..=0x11FF => Span {
                low: 0x11A8,
                high: 0x1200,
                outer: 0xD7CB,
                end: 0xD7FC,
            },
            _ => empty_span(),
        }
    }

    // The same with one letter more: nowhere, if that is of another place. So an initial before a
    // peak, the commonest of all, is never searched for, and three letters seldom.
    fn narrowed(self, letter: u32) -> Self
        ensures { (front : List ℕ) → Covers front self → Covers (front ++ (letter ∷ [])) result }
    {
        if letter < self.low {
            return empty_span();
        }
        if self.high <= letter {
            return empty_span();
        }
        self
    }
}

// The first code from `low` on, before `high`, that has this row.
fn row_between(row: Row, low: u32, high: u32) -> Option<u32>
    ensures { SearchedFrom row low high result }
{
    for code in low..high {
        if row_at(code) == row {
            return Some(code);
        }
    }
    None
}

// The first code of a span that has this row.
fn row_in(row: Row, span: Span) -> Option<u32>
    ensures { SearchedIn row span result }
{
    row_between(row, span.low, span.high).or_else(|| row_between(row, span.outer, span.end))
}

// The cluster of two letters. A second letter 0 would be taken for 'no second letter'.
fn two_of(first: u32, second: u32) -> Option<u32>
    ensures { result ≡ as_answer (two_of first second) }
{
    if second == 0 {
        return None;
    }
    let row = Row {
        first,
        second,
        third: 0,
    };
    row_in(row, Span::of(first).narrowed(second))
}

// The cluster of three letters; and here a third letter 0 as well.
fn three_of(first: u32, second: u32, third: u32) -> Option<u32>
    ensures { result ≡ as_answer (three_of first second third) }
{
    if second == 0 {
        return None;
    }
    if third == 0 {
        return None;
    }
    let row = Row {
        first,
        second,
        third,
    };
    row_in(row, Span::of(first).narrowed(second).narrowed(third))
}

// Three letters decide the first of them: three that are a cluster, else two, else it stays alone,
// as plain text does, which is looked at first.
fn decided(first: u32, second: u32, third: u32) -> Gathered
    ensures { GatherStepped (Two first second) third result }
{
    if first < 0x1100 {
        return Gathered {
            pending: Pending::Two(second, third),
            out: Emitted::One(first),
        };
    }
    if let Some(three) = three_of(first, second, third) {
        return Gathered {
            pending: Pending::Nothing,
            out: Emitted::One(three),
        };
    }
    if let Some(two) = two_of(first, second) {
        return Gathered {
            pending: Pending::One(third),
            out: Emitted::One(two),
        };
    }
    Gathered {
        pending: Pending::Two(second, third),
        out: Emitted::One(first),
    }
}

// Two letters at the end of a text: a cluster, or each alone.
fn last_two(first: u32, second: u32) -> Emitted
    ensures { emitted result ≡ gather_flush (Two first second) }
{
    match two_of(first, second) {
        Some(two) => Emitted::One(two),
        None => Emitted::Two(first, second),
    }
}

impl Pending {
    // Takes the next letter: what it writes, and what is not decided after it.
    pub(crate) fn step(self, letter: u32) -> Gathered
        ensures { GatherStepped self letter result }
    {
        match self {
            Pending::Nothing => Gathered {
                pending: Pending::One(letter),
                out: Emitted::Empty,
            },
            Pending::One(first) => Gathered {
                pending: Pending::Two(first, letter),
                out: Emitted::Empty,
            },
            Pending::Two(first, second) => decided(first, second, letter),
        }
    }

    // What is still not decided at the end of a text.
    pub(crate) fn flush(self) -> Emitted
        ensures { emitted result ≡ gather_flush self }
    {
        match self {
            Pending::Nothing => Emitted::Empty,
            Pending::One(only) => Emitted::One(only),
            Pending::Two(first, second) => last_two(first, second),
        }
    }
}
