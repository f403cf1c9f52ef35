// lister: lists the characters of the text on standard input, a line each (document 01,
// 'Programs'). It reads, calls and writes; the list is crate listing's.
#![tactic(auto)]

use answers::Refusal;
use std::io;
use std::io::{Stdout, Write};

// One byte more than the limit, so that a text over the limit shows.
const TEXT: usize = 16385;

// Ten for each byte that is taken are always enough.
const ROOM: usize = 163840;

// Writes what was listed, or the refusal.
fn write_answer(
    stdout: &mut Stdout,
    answer: Result<usize, Refusal>,
    listed: &[u8],
) -> io::Result<()> {
    match answer {
        Ok(length) => streams::write_front(stdout, listed, length),
        Err(refusal) => {
            let line = answers::refusal_line(refusal);
            stdout.write_all(&line)
        }
    }
}

fn main(rt: HostRuntime) -> io::Result<()> {
    let mut text = [0u8; TEXT];
    let mut listed = [0u8; ROOM];
    let size = streams::read_full(&mut rt.stdin(), &mut text)?;
    let answer = listing::list(&text[..size], &mut listed);
    write_answer(&mut rt.stdout(), answer, &listed)
}
