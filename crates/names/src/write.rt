// Naming a syllable into a lent buffer: the prefix, then three strings picked by I, P and F
// (document 01, 'Names').
ghost use Rattle.std.specs.Prelude.{◌≡◌, ◌≤◌, length, true};
ghost use Rattle.laws.specs.Writing.{Room, Wrote};
ghost use Rattle.answers.specs.Checks.{no_room};
ghost use Rattle.answers.specs.Answers.{checked};
ghost use Rattle.names.specs.Names.{prefix, name_by};
ghost use Rattle.names.specs.Naming.{Names};
ghost use Rattle.names.specs.Inner.{indices_of, Inside, NamesBy};
ghost use Rattle.letters.specs.Syllables.{is_syllable};

use crate::strings::{self, Indices};
use answers::Refusal;

// Writes "HANGUL SYLLABLE " to the front, and answers the index after it.
fn put_prefix(out: &mut [u8]) -> usize
    requires { Room out.old 0 prefix }
    ensures { Wrote out.old 0 prefix result out.new }
{
    out[..16].copy_from_slice(b"HANGUL SYLLABLE ");
    16
}

// Writes a string from `at` on, and answers the index after it. A string has at most three letters,
// which are stored here: with `copy_from_slice` naming misses its bar of instructions.
fn put_part(part: &[u8], out: &mut [u8], at: usize) -> usize
    requires few { length part.now ≤ 3 }
    requires room { Room out.old at part.now }
    ensures { Wrote out.old at part.now result out.new }
{
    match part {
        [] => at,
        [first] => {
            out[at] = *first;
            at + 1
        }
        [first, second] => {
            out[at] = *first;
            out[at + 1] = *second;
            at + 2
        }
        [first, second, third, ..] => {
            out[at] = *first;
            out[at + 1] = *second;
            out[at + 2] = *third;
            at + 3
        }
    }
}

// The check of the room: 3. 23 bytes are always enough, and then nothing is counted.
fn check_name_room(indices: Indices, room: usize) -> Result<(), Refusal>
    requires { Inside indices }
    ensures { checked result ≡ no_room room (length (name_by indices.initial indices.peak indices.last)) }
{
    if 23 <= room {
        return Ok(());
    }
    let initial = strings::initial(indices.initial);
    let peak = strings::peak(indices.peak);
    let last = strings::last(indices.last);
    answers::check_room(room, 16 + initial.len() + peak.len() + last.len())
}

// Writes the prefix and three strings to the front of `out`, which has room for them.
fn put_name(indices: Indices, out: &mut [u8]) -> usize
    requires inside { Inside indices }
    requires last_in_bounds { length (name_by indices.initial indices.peak indices.last) ≤ length out.old }
    ensures { Wrote out.old 0 (name_by indices.initial indices.peak indices.last) result out.new }
{
    let after_prefix = put_prefix(out);
    let after_initial = put_part(strings::initial(indices.initial), out, after_prefix);
    let after_peak = put_part(strings::peak(indices.peak), out, after_initial);
    put_part(strings::last(indices.last), out, after_peak)
}

// Names a syllable by its three indices: refusal 3.
fn name_by(indices: Indices, out: &mut [u8]) -> Result<usize, Refusal>
    requires { Inside indices }
    ensures { NamesBy indices.initial indices.peak indices.last out.old result out.new }
{
    check_name_room(indices, out.len())?;
    Ok(put_name(indices, out))
}

// The three indices of a syllable.
fn indices_of(code: u32) -> Indices
    requires { is_syllable code ≡ true }
    ensures { result ≡ indices_of code }
{
    let index = (code - 0xAC00) as usize;
    Indices {
        initial: index / 588,
        peak: index % 588 / 28,
        last: index % 28,
    }
}

// Names a syllable: refusals 4 and 3.
pub fn name(code: u32, out: &mut [u8]) -> Result<usize, Refusal>
    ensures { Names code out.old result out.new }
{
    if code < 0xAC00 {
        return Err(Refusal::NoSyllable);
    }
    if 0xD7A3 < code {
        return Err(Refusal::NoSyllable);
    }
    name_by(indices_of(code), out)
}
