// calls: one door to the calls of docs/CALLS.md, for an independent program to drive. Reads
// calls on standard input and writes answers on standard output; the work is the library's.
#![tactic(auto)]

mod heads;
mod kinds;
mod labelled;
mod replies;

use heads::{Call, Sizes};
use std::io;
use std::io::{Stdin, Stdout, Write};
use wire::Reply;

// What is read and written is at most this large: the bytes and the code points that come in, and
// what is lent of each, after the sixteen bytes of an answer's numbers.
const INPUT: usize = 160000;

const CODES: usize = 40000;

const ROOM: usize = 120000;

const OUTPUT: usize = 600016;

// What comes in, as bytes and as code points, and what goes out: the code points that are lent, and
// all that is written, in which the lent bytes stand. Made once, not for each call.
#[derive(Drop)]
struct Buffers<'a> {
    input: &'a mut [u8],
    text: &'a mut [u32],
    lent: &'a mut [u32],
    output: &'a mut [u8],
}

impl Buffers<'_> {
    // Reads the elements of a call: false if the input ends before them.
    fn read_elements(&mut self, stdin: &mut Stdin, sizes: Sizes) -> io::Result<bool> {
        let input = &mut *self.input;
        let text = &mut *self.text;
        let size = wire::at_most(input.len(), sizes.bytes);
        if !wire::read_full(stdin, &mut input[..size])? {
            return Ok(false);
        }
        let count = wire::at_most(text.len(), sizes.codes);
        wire::read(input, &mut text[..count]);
        Ok(true)
    }

    // Makes the call with what came in. Bytes are lent where they are written, after the answer's
    // numbers.
    fn answer(&mut self, call: Call, sizes: Sizes) -> Reply {
        let input = &mut *self.input;
        let text = &mut *self.text;
        let lent = &mut *self.lent;
        let output = &mut *self.output;
        let size = wire::at_most(input.len(), sizes.bytes);
        let count = wire::at_most(text.len(), sizes.codes);
        let room = wire::at_most(lent.len(), sizes.lent);
        let end = wire::at_most(output.len(), sizes.lent_end);
        let start = wire::at_most(end, 16);
        kinds::answer(
            call,
            &text[..count],
            &input[..size],
            &mut lent[..room],
            &mut output[start..end],
        )
    }

    // Writes the answer and then what was lent: bytes are in `output` already, and code points are
    // put there.
    fn write_answer(&mut self, stdout: &mut Stdout, answer: Reply, sizes: Sizes) -> io::Result<()> {
        let lent = &mut *self.lent;
        let output = &mut *self.output;
        let room = wire::at_most(lent.len(), sizes.lent);
        let end = wire::at_most(output.len(), sizes.end);
        let start = wire::at_most(end, 16);
        wire::put(&lent[..room], &mut output[start..end]);
        wire::put_reply(answer, output);
        stdout.write_all(&output[..end])?;
        stdout.flush()
    }

    // Answers the next call: false if there is none.
    fn one_call(&mut self, stdin: &mut Stdin, stdout: &mut Stdout) -> io::Result<bool> {
        let Some(call) = Call::next(stdin)? else {
            return Ok(false);
        };
        let sizes = call.sizes();
        if !self.read_elements(stdin, sizes)? {
            return Ok(false);
        }
        let answer = self.answer(call, sizes);
        self.write_answer(stdout, answer, sizes)?;
        Ok(true)
    }

    // Answers calls until the input ends, or a call is of no kind, too large, or breaks another
    // bound of its kind. A proved loop has to end, and nothing says that the input does: no run
    // uses up the turns of this one. It stands apart from `main`, since the check of a loop beside
    // arrays of this size takes long.
    fn all_calls(&mut self, stdin: &mut Stdin, stdout: &mut Stdout) -> io::Result<()> {
        for _ in 0..u64::MAX {
            if !self.one_call(stdin, stdout)? {
                break;
            }
        }
        Ok(())
    }
}

fn main(rt: HostRuntime) -> io::Result<()> {
    let mut input = [0u8; INPUT];
    let mut text = [0u32; CODES];
    let mut lent = [0u32; ROOM];
    let mut output = [0u8; OUTPUT];
    let mut buffers = Buffers {
        input: &mut input,
        text: &mut text,
        lent: &mut lent,
        output: &mut output,
    };
    buffers.all_calls(&mut rt.stdin(), &mut rt.stdout())
}
