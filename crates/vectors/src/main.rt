// vectors: answers test vectors, each line of standard input with a line of standard output. It
// judges no answer: the gate compares them with crates/vectors/stdout, which tests/vectors makes
// from the published files and tests/cases.txt.
#![tactic(auto)]

mod operand;
mod put;
mod single;
mod texts;
mod words;

use std::io;
use std::io::Stdout;

// What is read at once.
const BLOCK: usize = 65536;

// A line that fills its buffer is too long.
const LINE: usize = 4096;

// The line that comes in, as far as it is held.
#[derive(Drop)]
struct Line {
    bytes: [u8; LINE],
    held: usize,
}

impl Line {
    // Holds one byte more, if there is room for it.
    fn hold(&mut self, byte: u8) {
        if self.held < LINE {
            self.bytes[self.held] = byte;
            self.held += 1;
        }
    }

    // Answers the line that is held.
    fn answer(&self, stdout: &mut Stdout) -> io::Result<()> {
        if LINE <= self.held {
            return put::no_vector(stdout);
        }
        words::answer(stdout, &self.bytes[..self.held])
    }

    // Takes the next byte of the input: a line feed has the line answered, any other byte is held.
    fn take(&mut self, byte: u8, stdout: &mut Stdout) -> io::Result<()> {
        if byte != b'\n' {
            self.hold(byte);
            return Ok(());
        }
        self.answer(stdout)?;
        self.held = 0;
        put::byte(stdout, b'\n')
    }

    // What comes after the last line feed is no line: it is answered as such, so that a cut input
    // shows.
    fn answer_rest(&self, stdout: &mut Stdout) -> io::Result<()> {
        if self.held == 0 {
            return Ok(());
        }
        put::no_vector(stdout)?;
        put::byte(stdout, b'\n')
    }
}

// Answers the lines that end in a block, and holds what comes after the last of them.
fn take_block(stdout: &mut Stdout, block: &[u8], line: &mut Line) -> io::Result<()> {
    for byte in block {
        line.take(*byte, stdout)?;
    }
    Ok(())
}

// A proved loop has to end, and nothing says that the input does: no run uses up the turns of this
// one.
fn main(rt: HostRuntime) -> io::Result<()> {
    let mut stdin = rt.stdin();
    let mut stdout = rt.stdout();
    let mut block = [0u8; BLOCK];
    let mut line = Line {
        bytes: [0; LINE],
        held: 0,
    };
    for _ in 0..u64::MAX {
        let size = streams::read_full(&mut stdin, &mut block)?;
        if size == 0 {
            return line.answer_rest(&mut stdout);
        }
        take_block(&mut stdout, &block[..size], &mut line)?;
    }
    Ok(())
}
