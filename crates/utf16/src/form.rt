// UTF-16 as an encoding form.
ghost use Rattle.std.specs.Prelude.{refl};
ghost use Rattle.std.proofs.Common.{rules};
ghost use Rattle.utf16.specs.Utf16.{form16};
ghost use Rattle.utf16.specs.Most.{units-most};

use answers::Refusal;
use encodings::{EncodingForm, Taken};

// Texts of 16-bit units.
pub struct Utf16;

impl EncodingForm for Utf16 {
    type Unit = u16;

    ghost form = { form16 };

    ghost numbers = { λ units. units };

    const MOST: usize = 2;

    ghost MOST = { 2 };

    ghost as_long = { λ units. refl };

    ghost few = { units-most };

    ghost small = { Prim.search rules };

    fn check(text: &[u16]) -> Result<(), Refusal> {
        answers::check_units(text)
    }

    fn read_at(text: &[u16], at: usize) -> Taken {
        crate::decode::read_at(text, at)
    }

    fn size_of(code: u32) -> usize {
        crate::encode::size_of(code)
    }

    fn put_at(code: u32, out: &mut [u16], at: usize) -> usize {
        crate::encode::put_at(code, out, at)
    }
}
