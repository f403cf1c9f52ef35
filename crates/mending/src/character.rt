// The character at an index of a text of units, in any encoding form: a code point, with those after
// it that join to it. This is the general path. Each fast path answers what it would answer.
ghost use Rattle.std.specs.Prelude.{◌≡◌, ◌+◌, ◌≤◌, length, drop};
ghost use Rattle.encodings.specs.Forms.{pieces_in};
ghost use Rattle.joining.specs.Roles.{role_of};
ghost use Rattle.mending.specs.Characters.{grown_once_in, character_in, role_goes_on};

use encodings::{EncodingForm, Taken};
use joining::Role;

// May a code point join with what stands after it?
pub fn goes_on(code: u32) -> bool
    ensures { result ≡ role_goes_on (role_of code) }
{
    matches!(joining::role_of(code), Role::Initial | Role::Lv)
}

// A character that begins at an index, with the code point after it if the two join.
fn grow<E: EncodingForm>(text: &[E::Unit], at: usize, taken: Taken) -> Taken
    requires { at + taken.size ≤ length text.now }
    ensures { result ≡ grown_once_in E.form taken (pieces_in E.form (drop (at + taken.size) (E.numbers text.now))) }
{
    let size = taken.size;
    let next = E::read_at(text, at + size);
    match joining::joined(taken.code, next.code) {
        Some(code) => Taken {
            code,
            size: size + next.size,
            ill: taken.ill,
        },
        None => taken,
    }
}

// The character that begins at an index: at most three code points join to one.
pub fn general_at<E: EncodingForm>(text: &[E::Unit], at: usize) -> Taken
    ensures { result ≡ character_in E.form (pieces_in E.form (drop at (E.numbers text.now))) }
{
    let first = E::read_at(text, at);
    if !goes_on(first.code) {
        return first;
    }
    let second = grow::<E>(text, at, first);
    if !goes_on(second.code) {
        return second;
    }
    grow::<E>(text, at, second)
}
