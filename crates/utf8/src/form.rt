// UTF-8 as an encoding form.
ghost use Rattle.std.specs.Prelude.{refl};
ghost use Rattle.std.proofs.Common.{rules};
ghost use Rattle.utf8.specs.Utf8.{form8};
ghost use Rattle.utf8.specs.Most.{bytes_most};

use answers::Refusal;
use encodings::{EncodingForm, Taken};

// Texts of bytes.
pub struct Utf8;

impl EncodingForm for Utf8 {
    type Unit = u8;

    ghost form = { form8 };

    ghost numbers = { λ bytes. bytes };

    const MOST: usize = 4;

    ghost MOST = { 4 };

    ghost as_long = { λ bytes. refl };

    ghost few = { bytes_most };

    ghost small = { Prim.search rules };

    fn check(text: &[u8]) -> Result<(), Refusal> {
        answers::check_bytes(text)
    }

    fn read_at(text: &[u8], at: usize) -> Taken {
        crate::decode::read_at(text, at)
    }

    fn size_of(code: u32) -> usize {
        crate::encode::size_of(code)
    }

    fn put_at(code: u32, out: &mut [u8], at: usize) -> usize {
        crate::encode::put_at(code, out, at)
    }
}
