// An image of records: is it whole, has it a record, and are all its records good?
ghost use Rattle.std.specs.Prelude.{◌≡◌, [], ◌∷◌};
ghost use Rattle.answers.specs.Answers.{checked};
ghost use Rattle.labels.specs.Images.{no_record, over_image, no_image, Judges};
ghost use Rattle.answers.specs.Checks.{passes, in_order};
ghost use Rattle.labels.specs.declared.image.ImageRefusal.TheVariants.{Refused};

use crate::record::Entry;
use answers::Refusal;

// The most bytes of an image: 682 records.
pub(crate) const MOST: usize = 65472;

// Why a whole image is refused: as any call is, or since a record breaks its layout, of which it
// says the number, and the first byte that breaks the layout.
#[derive(Clone, Copy, Debug, PartialEq, Eq)]
pub enum ImageRefusal {
    Refused(Refusal),
    BadRecord(usize, usize),
}

impl From<Refusal> for ImageRefusal {
    ghost from_gives = { λ refusal image_refusal. image_refusal ≡ Refused refusal };

    fn from(refusal: Refusal) -> ImageRefusal {
        ImageRefusal::Refused(refusal)
    }
}

// 6 if the image is no whole number of records, or does not have that one.
pub(crate) fn check_number(image: &[u8], number: usize) -> Result<(), Refusal>
    ensures { checked result ≡ no_record image.now number }
{
    if image.len() % 96 != 0 {
        return Err(Refusal::NoRecord(image.len()));
    }
    if image.len() / 96 <= number {
        return Err(Refusal::NoRecord(image.len()));
    }
    Ok(())
}

// 1, then 6 if the image is no whole number of records.
fn check_image(image: &[u8]) -> Result<(), Refusal>
    ensures { checked result ≡ in_order (over_image image.now ∷ no_image image.now ∷ []) }
{
    if MOST < image.len() {
        return Err(Refusal::OverLimit(MOST));
    }
    if image.len() % 96 != 0 {
        return Err(Refusal::NoRecord(image.len()));
    }
    Ok(())
}

// Judges the records of an image that has passed 1 and 6, from the first on.
fn judge_records(image: &[u8]) -> Result<usize, ImageRefusal>
    requires { in_order (over_image image.now ∷ no_image image.now ∷ []) ≡ passes }
    ensures { Judges image.now result }
{
    let count = image.len() / 96;
    for number in 0..count {
        if let Some(byte) = crate::layout::fault_at(image, number) {
            return Err(ImageRefusal::BadRecord(number, byte));
        }
    }
    Ok(count)
}

// Reads a whole image: refusals 1, 6 and 7.
pub fn read_image(image: &[u8]) -> Result<usize, ImageRefusal>
    ensures { Judges image.now result }
{
    check_image(image)?;
    judge_records(image)
}
