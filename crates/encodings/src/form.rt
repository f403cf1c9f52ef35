// An encoding form as the code has it: its units, and what is read and written one code point at a
// time. That what it does is an encoding form (`Encodes`) is a law of its crate, in proofs/, which no
// `impl` may cite; reading and writing ask no more of it than stands here.
ghost use Rattle.std.specs.Prelude.{◌≡◌, ◌≤◌, ◌*◌, ℕ, List, drop, length};
ghost use Rattle.laws.specs.Writing.{Wrote, fitted};
ghost use Rattle.answers.specs.Answers.{checked};
ghost use Rattle.answers.specs.Checks.{takes_units};
ghost use Rattle.encodings.specs.Forms.{Form, code_units, pieces_in};
ghost use Rattle.encodings.specs.Reading.{taken_in};

use crate::answer::Taken;
use answers::Refusal;

// What UTF-8 and UTF-16 are, so that a text of either is read and written by the same functions.
pub trait EncodingForm {
    type Unit;

    ghost form: { Form };

    // The units of a text as numbers.
    ghost numbers: { List Self.Unit → List ℕ };

    // At most so many units a code point takes.
    const MOST: usize;

    ghost MOST: { ℕ };

    // The check that a text of units has to pass: 1.
    fn check(text: &[Self::Unit]) -> Result<(), Refusal>
        ensures { checked result ≡ takes_units (numbers text.now) };

    // The code point that begins at an index, or one FFFD for the ill-formed subpart there.
    fn read_at(text: &[Self::Unit], at: usize) -> Taken
        ensures { result ≡ taken_in form (pieces_in form (drop at (numbers text.now))) };

    // How many units a code point takes.
    fn size_of(code: u32) -> usize
        ensures { result ≡ length (form.units code) };

    // Writes a code point's units from `at` on if there is room for all of them, and answers the
    // index after them.
    fn put_at(code: u32, out: &mut [Self::Unit], at: usize) -> usize
        ensures { Wrote (numbers out.old) at (fitted (code_units form code) (numbers out.old) at) result (numbers out.new) };

    // What reading and writing ask besides: a text has as many numbers as units, and a code point
    // takes at most `MOST` units, and these at most four.
    ghost as_long: { (text : List Self.Unit) → length (numbers text) ≡ length text };

    ghost few: { (c : ℕ) → length (form.units c) ≤ MOST };

    ghost small: { MOST ≤ 4 };
}
