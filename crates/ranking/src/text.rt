// Ranking two texts of code points, which are joined as they are compared (document 01, 'Ranking
// labels').
ghost use Rattle.std.specs.Prelude.{◌≡◌, ◌≤◌, length, get_or};
ghost use Rattle.answers.specs.Answers.{checked};
ghost use Rattle.ranking.specs.Ranking.{rank, takes_two, Ranks};
ghost use Rattle.ranking.specs.Inner.{joined_from, NextBegins, Reached, Advanced};

use crate::compare::{At, Next, State};
use answers::Refusal;
use std::cmp::Ordering;

// The code point at an index, or 0 after the end. 0 joins with nothing.
fn code(text: &[u32], at: usize) -> u32
    ensures { result ≡ get_or text.now at 0 }
{
    text.get(at).copied().unwrap_or(0)
}

// The character that begins at an index: at most three code points join to one.
fn next_at(text: &[u32], at: usize) -> Next
    requires at_in_bounds { at ≤ length text.now }
    requires text_len_bound { length text.now ≤ 16384 }
    ensures { NextBegins joined_from text.now at result }
{
    if text.len() <= at {
        return crate::compare::next_of(0, 0);
    }
    let first = text[at];
    let Some(two) = joining::joined(first, code(text, at + 1)) else {
        return crate::compare::next_of(first, 1);
    };
    let Some(three) = joining::joined(two, code(text, at + 2)) else {
        return crate::compare::next_of(two, 2);
    };
    crate::compare::next_of(three, 3)
}

// One step.
fn advance(first: &[u32], second: &[u32], s: At) -> At
    requires { Reached first.now second.now s }
    ensures { Advanced joined_from first.now second.now s result }
{
    let front = next_at(first, s.first);
    let other = next_at(second, s.second);
    s.advance(front, other)
}

// Two texts that have passed their checks.
fn rank_checked(first: &[u32], second: &[u32]) -> Ordering
    requires first_len_bound { length first.now ≤ 16384 }
    requires second_len_bound { length second.now ≤ 16384 }
    ensures { result ≡ rank first.now second.now }
{
    let mut s = At {
        state: State::Apart,
        first: 0,
        second: 0,
    };
    // No `for`: how far a step goes is known once it is made.
    while s.goes_on() {
        s = advance(first, second, s);
    }
    s.settled()
}

// 1 for the first text, 1 for the second, then 2 likewise.
fn check_two(first: &[u32], second: &[u32]) -> Result<(), Refusal>
    ensures { checked result ≡ takes_two first.now second.now }
{
    if answers::LIMIT < first.len() {
        return Err(Refusal::OverLimit(answers::LIMIT));
    }
    if answers::LIMIT < second.len() {
        return Err(Refusal::OverLimit(answers::LIMIT));
    }
    let bad = answers::first_bad(first);
    if bad < first.len() {
        return Err(Refusal::BadCodePoint(bad));
    }
    let other = answers::first_bad(second);
    if other < second.len() {
        return Err(Refusal::BadCodePoint(other));
    }
    Ok(())
}

// Ranks two texts of code points: refusals 1 and 2.
pub fn rank(first: &[u32], second: &[u32]) -> Result<Ordering, Refusal>
    ensures { Ranks first.now second.now result }
{
    check_two(first, second)?;
    Ok(rank_checked(first, second))
}
