// ranker: prints the record numbers of the label file on standard input in the order of their
// labels (document 01, 'Programs'). It reads, calls and writes; the lines are sorting::lines'.
#![tactic(auto)]

use answers::Refusal;
use labels::ImageRefusal;
use std::io;
use std::io::{Stdout, Write};

// One byte more than the limit, so that an image over the limit shows.
const IMAGE: usize = 65473;

// The lines of 682 records.
const ROOM: usize = 2618;

fn write_refusal(stdout: &mut Stdout, refusal: Refusal) -> io::Result<()> {
    let line = answers::refusal_line(refusal);
    stdout.write_all(&line)
}

// Writes the lines, or the refusal.
fn write_answer(
    stdout: &mut Stdout,
    answer: Result<usize, ImageRefusal>,
    printed: &[u8],
) -> io::Result<()> {
    match answer {
        Ok(length) => streams::write_front(stdout, printed, length),
        Err(ImageRefusal::Refused(refusal)) => write_refusal(stdout, refusal),
        Err(ImageRefusal::BadRecord(_, byte)) => write_refusal(stdout, Refusal::BadLayout(byte)),
    }
}

fn main(rt: HostRuntime) -> io::Result<()> {
    let mut image = [0u8; IMAGE];
    let mut printed = [0u8; ROOM];
    let size = streams::read_full(&mut rt.stdin(), &mut image)?;
    let answer = sorting::print(&image[..size], &mut printed);
    write_answer(&mut rt.stdout(), answer, &printed)
}
