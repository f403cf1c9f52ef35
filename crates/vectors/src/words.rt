// The words of a vector, and the answer of a line. A new word gets an arm here; one that makes a
// text of a text gets a case and an arm in texts too.
use crate::texts::Text;
use crate::{put, single, texts};
use std::io;
use std::io::Stdout;

// A line is a word, a space and operands. A code is capital hex of four to six digits, a text codes
// with single spaces between. A refusal is answered `refused N PLACE`.
pub(crate) fn answer(stdout: &mut Stdout, line: &[u8]) -> io::Result<()> {
    let Some(size) = line.iter().position(|byte| *byte == b' ') else {
        return put::no_vector(stdout);
    };
    let operands = &line[size + 1..];
    match &line[..size] {
        // `join A;B;..`, and so parts, simple, gather and groups: texts; a text or a refusal for
        // each, with `;` between.
        b"join" => texts::each(stdout, Text::Join, operands),
        b"parts" => texts::each(stdout, Text::Parts, operands),
        b"simple" => texts::each(stdout, Text::Simple, operands),
        b"gather" => texts::each(stdout, Text::Gather, operands),
        b"groups" => texts::each(stdout, Text::Groups, operands),
        // `step C`: a code; one or two codes.
        b"step" => single::step(stdout, operands),
        // `name C`: a code; the name.
        b"name" => single::name(stdout, operands),
        // `read TEXT`: all that comes after the space; the code of the syllable.
        b"read" => single::read(stdout, operands),
        // `utf8 XX XX ..`: bytes in capital hex of two digits; the text that they read as.
        b"utf8" => single::utf8(stdout, operands),
        // Any other word: `not a vector`, as for every line that is not well formed.
        _ => put::no_vector(stdout),
    }
}
