// The words with one operand: step and name take a code, read a name, utf8 bytes. Each writes its
// answer.
use crate::{operand, put};
use letters::Parts;
use std::io;
use std::io::Stdout;

// No name of a syllable is longer.
const NAME: usize = 23;

// The most bytes of a text, and so the most codes that they read as.
const BYTES: usize = 512;

fn put_parts(stdout: &mut Stdout, parts: Parts) -> io::Result<()> {
    match parts {
        Parts::One(only) => put::code(stdout, only),
        Parts::Two(first, second) => {
            put::code(stdout, first)?;
            put::byte(stdout, b' ')?;
            put::code(stdout, second)
        }
    }
}

pub(crate) fn step(stdout: &mut Stdout, operand: &[u8]) -> io::Result<()> {
    let Some(code) = operand::code(operand) else {
        return put::no_vector(stdout);
    };
    match letters::one_step(code) {
        Ok(parts) => put_parts(stdout, parts),
        Err(refusal) => put::refusal(stdout, refusal),
    }
}

pub(crate) fn name(stdout: &mut Stdout, operand: &[u8]) -> io::Result<()> {
    let Some(code) = operand::code(operand) else {
        return put::no_vector(stdout);
    };
    let mut bytes = [0u8; NAME];
    match names::name(code, &mut bytes) {
        Ok(length) => put::front(stdout, &bytes, length),
        Err(refusal) => put::refusal(stdout, refusal),
    }
}

// Any bytes are a name to be read, none too.
pub(crate) fn read(stdout: &mut Stdout, name: &[u8]) -> io::Result<()> {
    match names::read_name(name) {
        Ok(code) => put::code(stdout, code),
        Err(refusal) => put::refusal(stdout, refusal),
    }
}

pub(crate) fn utf8(stdout: &mut Stdout, operand: &[u8]) -> io::Result<()> {
    let mut room = [0u8; BYTES];
    let Some(bytes) = operand::bytes(operand, &mut room) else {
        return put::no_vector(stdout);
    };
    let mut made = [0u32; BYTES];
    match utf8::read_text(bytes, &mut made) {
        Ok(counted) => put::codes(stdout, &made, counted.length),
        Err(refusal) => put::refusal(stdout, refusal),
    }
}
