// The calls for C: each calls one function of a crate below and puts its answer into three numbers.
ghost use Rattle.std.specs.Prelude.{◌≡◌};
ghost use Rattle.pulphopper.specs.Replies.{Mends, MendsUnits, NamesForC, ReadsNameForC, RanksForC};

use crate::answer::Answer;

// Mends a text of bytes: value is the bytes written, count the ill-formed subparts.
pub fn pulphopper_mend(text: &[u8], out: &mut [u8]) -> Answer
    ensures { Mends text.now out.old result out.new }
{
    match mending::mend(text, out) {
        Ok(counted) => crate::answer::counted(counted),
        Err(refusal) => crate::answer::refused(refusal),
    }
}

// Mends a text of 16-bit units: value is the units written, count the unpaired surrogates.
pub fn pulphopper_mend_units(text: &[u16], out: &mut [u16]) -> Answer
    ensures { MendsUnits text.now out.old result out.new }
{
    match mending_units::mend(text, out) {
        Ok(counted) => crate::answer::counted(counted),
        Err(refusal) => crate::answer::refused(refusal),
    }
}

// Names a syllable: value is the length of the name.
pub fn pulphopper_name(code: u32, out: &mut [u8]) -> Answer
    ensures { NamesForC code out.old result out.new }
{
    match names::name(code, out) {
        Ok(length) => Answer {
            refusal: 0,
            count: 0,
            value: length as u64,
        },
        Err(refusal) => crate::answer::refused(refusal),
    }
}

// Reads a name: value is the syllable.
pub fn pulphopper_read_name(name: &[u8]) -> Answer
    ensures { ReadsNameForC name.now result }
{
    match names::read_name(name) {
        Ok(code) => Answer {
            refusal: 0,
            count: 0,
            value: code as u64,
        },
        Err(refusal) => crate::answer::refused(refusal),
    }
}

// Ranks two labels: value is 0 if the first comes before the second, 1 if they are equal, 2 if it
// comes after.
pub fn pulphopper_rank(first: &[u8], second: &[u8]) -> Answer
    ensures { RanksForC first.now second.now result }
{
    match ranking::rank_bytes(first, second) {
        Ok(order) => Answer {
            refusal: 0,
            count: 0,
            value: ranking::number_of(order) as u64,
        },
        Err(refusal) => crate::answer::refused(refusal),
    }
}
