// Ranking two texts of UTF-8, which are read and joined as they are compared (document 01, 'Ranking
// labels').
ghost use Rattle.std.specs.Prelude.{◌≡◌, ◌≤◌, length, zip, take_while};
ghost use Rattle.answers.specs.Answers.{checked};
ghost use Rattle.ranking.specs.Ranking.{rank_bytes, takes_two_bytes, RanksBytes};
ghost use Rattle.ranking.specs.Inner.{mended_from, NextBegins, Reached, Follows, Advanced, is_plain, is_alike, Alike};

use crate::compare::{At, Next, State};
use answers::Refusal;
use std::cmp::Ordering;

// ASCII, and no digit.
fn is_plain(byte: u8) -> bool
    ensures { result ≡ is_plain byte }
{
    matches!(byte, 0..=0x2F | 0x3A..=0x7F)
}

// The same byte, and plain?
fn is_alike(first: u8, second: u8) -> bool
    ensures { result ≡ is_alike (first, second) }
{
    first == second && is_plain(first)
}

// How many bytes from the front of both on are alike.
fn common(first: &[u8], second: &[u8]) -> usize
    ensures { result ≡ length (take_while is_alike (zip first.now second.now)) }
{
    first
        .iter()
        .zip(second)
        .take_while(|(byte, other)| is_alike(**byte, **other))
        .count()
}

// How many bytes from the two indices on are alike and plain. They decide nothing.
fn alike(first: &[u8], second: &[u8], at: usize, other: usize) -> usize
    requires at_in_bounds { at ≤ length first.now }
    requires other_in_bounds { other ≤ length second.now }
    ensures { Alike first.now second.now at other result }
{
    common(&first[at..], &second[other..])
}

// Goes past what is alike, if an item begins here.
fn skip(first: &[u8], second: &[u8], s: At) -> At
    requires { Reached first.now second.now s }
    ensures { Follows mended_from first.now second.now s result }
{
    if !s.is_apart() {
        return s;
    }
    let count = alike(first, second, s.first, s.second);
    At {
        state: State::Apart,
        first: s.first + count,
        second: s.second + count,
    }
}

// The character that begins at an index.
fn next_at(text: &[u8], at: usize) -> Next
    requires { at ≤ length text.now }
    ensures { NextBegins mended_from text.now at result }
{
    let taken = mending::character_at(text, at);
    crate::compare::next_of(taken.code, taken.size)
}

// One step.
fn advance(first: &[u8], second: &[u8], s: At) -> At
    requires { Reached first.now second.now s }
    ensures { Advanced mended_from first.now second.now s result }
{
    let from = skip(first, second, s);
    let front = next_at(first, from.first);
    let other = next_at(second, from.second);
    from.advance(front, other)
}

// Two texts that have passed their check.
fn rank_checked(first: &[u8], second: &[u8]) -> Ordering
    requires first_len_bound { length first.now ≤ 16384 }
    requires second_len_bound { length second.now ≤ 16384 }
    ensures { result ≡ rank_bytes first.now second.now }
{
    let mut s = At {
        state: State::Apart,
        first: 0,
        second: 0,
    };
    // No `for`: how far a step goes is known once it is made.
    while s.goes_on() {
        s = advance(first, second, s);
    }
    s.settled()
}

// 1 for the first text, then 1 for the second.
fn check_two(first: &[u8], second: &[u8]) -> Result<(), Refusal>
    ensures { checked result ≡ takes_two_bytes first.now second.now }
{
    answers::check_bytes(first)?;
    answers::check_bytes(second)
}

// Ranks two texts of UTF-8, each as mending reads it: refusal 1.
pub fn rank_bytes(first: &[u8], second: &[u8]) -> Result<Ordering, Refusal>
    ensures { RanksBytes first.now second.now result }
{
    check_two(first, second)?;
    Ok(rank_checked(first, second))
}
