// The calls for C as symbols of a static library, and nothing else: each is the call of crate
// pulphopper of the same name, with the same contract. include/pulphopper.h declares and documents
// them.
#![tactic(auto)]

ghost use Rattle.std.specs.Prelude.{◌≡◌};
ghost use Rattle.pulphopper.specs.Replies.{Mends, MendsUnits, NamesForC, ReadsNameForC, RanksForC};

use pulphopper::Answer;

// Mends a text of bytes: value is the bytes written, count the ill-formed subparts.
#[unsafe(no_mangle)]
pub extern "C" fn pulphopper_mend(text: &[u8], out: &mut [u8]) -> Answer
    ensures { Mends text.now out.old result out.new }
{
    pulphopper::pulphopper_mend(text, out)
}

// Mends a text of 16-bit units: value is the units written, count the unpaired surrogates.
#[unsafe(no_mangle)]
pub extern "C" fn pulphopper_mend_units(text: &[u16], out: &mut [u16]) -> Answer
    ensures { MendsUnits text.now out.old result out.new }
{
    pulphopper::pulphopper_mend_units(text, out)
}

// Names a syllable: value is the length of the name.
#[unsafe(no_mangle)]
pub extern "C" fn pulphopper_name(code: u32, out: &mut [u8]) -> Answer
    ensures { NamesForC code out.old result out.new }
{
    pulphopper::pulphopper_name(code, out)
}

// Reads a name: value is the syllable.
#[unsafe(no_mangle)]
pub extern "C" fn pulphopper_read_name(name: &[u8]) -> Answer
    ensures { ReadsNameForC name.now result }
{
    pulphopper::pulphopper_read_name(name)
}

// Ranks two labels: value is 0 if the first comes before the second, 1 if they are equal, 2 if it
// comes after.
#[unsafe(no_mangle)]
pub extern "C" fn pulphopper_rank(first: &[u8], second: &[u8]) -> Answer
    ensures { RanksForC first.now second.now result }
{
    pulphopper::pulphopper_rank(first, second)
}
