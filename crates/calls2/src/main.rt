// calls2: the same door as `calls`, to the kinds of docs/CALLS.md from 20 on. It is a program of
// its own since `calls` takes long to prove.
#![tactic(auto)]

mod heads;
mod kinds;

use heads::{Call, Sizes};
use std::io;
use std::io::{Stdin, Stdout, Write};
use wire::Reply;

// What is read and written is at most this large: the bytes, the code points and the units that
// come in, what is lent of each, and an answer with it.
const INPUT: usize = 80000;

const ELEMENTS: usize = 20000;

const ROOM: usize = 120000;

const OUTPUT: usize = 480016;

// What comes in, as bytes and as code points or units; what is lent; and all that is written. Made
// once, not for each call.
#[derive(Drop)]
struct Buffers<'a> {
    input: &'a mut [u8],
    text: &'a mut [u32],
    units: &'a mut [u16],
    lent_codes: &'a mut [u32],
    lent_units: &'a mut [u16],
    output: &'a mut [u8],
}

impl Buffers<'_> {
    // Reads the elements of a call: false if the input ends before them.
    fn read_elements(&mut self, stdin: &mut Stdin, sizes: Sizes) -> io::Result<bool> {
        let input = &mut *self.input;
        let text = &mut *self.text;
        let units = &mut *self.units;
        let size = wire::at_most(input.len(), sizes.bytes);
        if !wire::read_full(stdin, &mut input[..size])? {
            return Ok(false);
        }
        let codes = wire::at_most(text.len(), sizes.codes);
        wire::read(input, &mut text[..codes]);
        let count = wire::at_most(units.len(), sizes.units);
        wire::read(input, &mut units[..count]);
        Ok(true)
    }

    // Makes the call with what came in.
    fn answer(&mut self, call: Call, sizes: Sizes) -> Reply {
        let text = &mut *self.text;
        let units = &mut *self.units;
        let lent_codes = &mut *self.lent_codes;
        let lent_units = &mut *self.lent_units;
        let codes = wire::at_most(text.len(), sizes.codes);
        let count = wire::at_most(units.len(), sizes.units);
        let room = wire::at_most(lent_codes.len(), sizes.lent_codes);
        let room_of_units = wire::at_most(lent_units.len(), sizes.lent_units);
        kinds::answer(
            call.kind,
            &text[..codes],
            &units[..count],
            &mut lent_codes[..room],
            &mut lent_units[..room_of_units],
        )
    }

    // Writes the answer and then what was lent: code points or units, of which the others are none.
    fn write_answer(&mut self, stdout: &mut Stdout, answer: Reply, sizes: Sizes) -> io::Result<()> {
        let lent_codes = &mut *self.lent_codes;
        let lent_units = &mut *self.lent_units;
        let output = &mut *self.output;
        let codes = wire::at_most(lent_codes.len(), sizes.lent_codes);
        let units = wire::at_most(lent_units.len(), sizes.lent_units);
        let end = wire::at_most(output.len(), sizes.end);
        let start = wire::at_most(end, 16);
        wire::put(&lent_codes[..codes], &mut output[start..end]);
        wire::put(&lent_units[..units], &mut output[start..end]);
        wire::put_reply(answer, output);
        stdout.write_all(&output[..end])?;
        stdout.flush()
    }

    // Answers the next call: false if there is none.
    fn one_call(&mut self, stdin: &mut Stdin, stdout: &mut Stdout) -> io::Result<bool> {
        let Some(call) = Call::next(stdin)? else {
            return Ok(false);
        };
        let sizes = call.sizes();
        if !self.read_elements(stdin, sizes)? {
            return Ok(false);
        }
        let answer = self.answer(call, sizes);
        self.write_answer(stdout, answer, sizes)?;
        Ok(true)
    }

    // Answers calls until the input ends, or a call is of no kind, too large, or breaks another
    // bound of its kind. As in `calls`, no run uses up the turns of the loop, and it stands apart
    // from `main`.
    fn all_calls(&mut self, stdin: &mut Stdin, stdout: &mut Stdout) -> io::Result<()> {
        for _ in 0..u64::MAX {
            if !self.one_call(stdin, stdout)? {
                break;
            }
        }
        Ok(())
    }
}

fn main(rt: HostRuntime) -> io::Result<()> {
    let mut input = [0u8; INPUT];
    let mut text = [0u32; ELEMENTS];
    let mut units = [0u16; ELEMENTS];
    let mut lent_codes = [0u32; ROOM];
    let mut lent_units = [0u16; ROOM];
    let mut output = [0u8; OUTPUT];
    let mut buffers = Buffers {
        input: &mut input,
        text: &mut text,
        units: &mut units,
        lent_codes: &mut lent_codes,
        lent_units: &mut lent_units,
        output: &mut output,
    };
    buffers.all_calls(&mut rt.stdin(), &mut rt.stdout())
}
