// The words that make a text of code points of a text of code points: join, parts, simple, gather,
// groups. Each field of the line is a text, and is answered in a field.
use crate::{operand, put};
use answers::Refusal;
use std::io;
use std::io::Stdout;

// The most codes of one text: a published vector has fewer than ten. The buffers are made anew for
// each text, so they are small.
const CODES: usize = 64;

// Seven for each code: no call of document 01 makes more.
const MADE: usize = 7 * CODES;

#[derive(Clone, Copy)]
pub(crate) enum Text {
    Join,
    Parts,
    Simple,
    Gather,
    Groups,
}

fn make(call: Text, text: &[u32], made: &mut [u32]) -> Result<usize, Refusal> {
    match call {
        Text::Join => joining::join(text, made),
        Text::Parts => letters::full_parts(text, made),
        Text::Simple => clusters::simple_form(text, made),
        Text::Gather => clusters::gathered_form(text, made),
        Text::Groups => fillers::turn(text, made),
    }
}

// Answers one field. One that has too many codes shows in its place.
fn answer_field(stdout: &mut Stdout, call: Text, field: &[u8]) -> io::Result<()> {
    let mut room = [0u32; CODES];
    let Some(text) = operand::codes(field, &mut room) else {
        return put::no_vector(stdout);
    };
    let mut made = [0u32; MADE];
    match make(call, text, &mut made) {
        Ok(length) => put::codes(stdout, &made, length),
        Err(refusal) => put::refusal(stdout, refusal),
    }
}

// Answers every field. If one is not well formed none is answered, so nothing is written
// before all are known to be texts.
pub(crate) fn each(stdout: &mut Stdout, call: Text, operands: &[u8]) -> io::Result<()> {
    if !operand::are_texts(operands) {
        return put::no_vector(stdout);
    }
    for (i, field) in operands.split(|byte| *byte == b';').enumerate() {
        if 0 < i {
            put::byte(stdout, b';')?;
        }
        answer_field(stdout, call, field)?;
    }
    Ok(())
}
