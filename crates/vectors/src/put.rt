// Writing an answer to standard output, each piece at once: a buffer lent through all these
// functions would make their check long.
ghost use Rattle.std.specs.Prelude.{◌≤◌};

use answers::Refusal;
use std::io;
use std::io::{Stdout, Write};

pub(crate) fn bytes(stdout: &mut Stdout, text: &[u8]) -> io::Result<()> {
    stdout.write_all(text)
}

pub(crate) fn byte(stdout: &mut Stdout, value: u8) -> io::Result<()> {
    let text = [value];
    bytes(stdout, &text)
}

// The answer of what is no vector: a word says so before it writes anything else.
pub(crate) fn no_vector(stdout: &mut Stdout) -> io::Result<()> {
    bytes(stdout, b"not a vector")
}

// Writes the first `size` bytes of a text. The library promises that they are there; if they are
// not, it shows.
pub(crate) fn front(stdout: &mut Stdout, text: &[u8], size: usize) -> io::Result<()> {
    match text.get(..size) {
        Some(front) => bytes(stdout, front),
        None => no_vector(stdout),
    }
}

// The last digit of a number in capital hex.
fn digit(value: u32) -> u8 {
    let digits = b"0123456789ABCDEF";
    digits[(value % 16) as usize]
}

// How many of six digits a code does without: four are always written.
fn spared(code: u32) -> usize
    ensures { result ≤ 2 }
{
    match code {
        0..=0xFFFF => 2,
        0x1_0000..=0xF_FFFF => 1,
        _ => 0,
    }
}

// A code in four to six digits. One that needs more is none, and shows. Its digits are one write:
// `write!` writes the zeros in front of a small number apart, and takes a quarter more time.
pub(crate) fn code(stdout: &mut Stdout, code: u32) -> io::Result<()> {
    if 0x100_0000 <= code {
        return no_vector(stdout);
    }
    let digits = [
        digit(code / 0x10_0000),
        digit(code / 0x1_0000),
        digit(code / 0x1000),
        digit(code / 0x100),
        digit(code / 0x10),
        digit(code),
    ];
    let from = spared(code);
    bytes(stdout, &digits[from..])
}

// The first `count` codes, with single spaces between.
pub(crate) fn codes(stdout: &mut Stdout, codes: &[u32], count: usize) -> io::Result<()> {
    let Some(front) = codes.get(..count) else {
        return no_vector(stdout);
    };
    for (i, one) in front.iter().enumerate() {
        if 0 < i {
            byte(stdout, b' ')?;
        }
        code(stdout, *one)?;
    }
    Ok(())
}

// A refusal as `refused`, its number and its place.
pub(crate) fn refusal(stdout: &mut Stdout, refusal: Refusal) -> io::Result<()> {
    let told = answers::tell(refusal);
    let number = told.number;
    let place = told.place;
    write!(stdout, "refused {number} {place}")
}
