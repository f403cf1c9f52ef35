// Writing one record into its own place in the middle of a lent image.
ghost use Rattle.std.specs.Prelude.{◌≡◌, ◌+◌, ◌*◌, ◌≤◌, length, [], ◌∷◌};
ghost use Rattle.labels.specs.Records.{record_of};
ghost use Rattle.labels.specs.Images.{replaced, over_image, no_record, Writes};
ghost use Rattle.answers.specs.Checks.{passes, in_order, takes_bytes};
ghost use Rattle.answers.specs.Answers.{checked};
ghost use Rattle.mending.specs.Mending.{mended};
ghost use Rattle.labels.specs.Inner.{Stores};

use crate::{image, layout};
use answers::Refusal;

// How a label is stored.
#[derive(Clone, Copy, Debug, PartialEq, Eq)]
pub enum Form {
    AsGiven,
    Joined,
}

// The record of an object, a berth and a label: a fresh one, filled.
fn filled(object: u32, berth: u16, label: &[u8]) -> [u8; 96]
    requires { length label.now ≤ 88 }
    ensures value { 96 ≡ length result }
    ensures value_2 { result ≡ record_of object berth label.now }
{
    let mut record = layout::fresh();
    record[..4].copy_from_slice(&object.to_be_bytes());
    record[4..6].copy_from_slice(&berth.to_be_bytes());
    record[6] = label.len() as u8;
    crate::record::copy(label, &mut record[8..]);
    record
}

// Writes a record into its place in the image.
fn put_at(image: &mut [u8], number: usize, object: u32, berth: u16, label: &[u8])
    requires number_in_bounds { 96 * number + 96 ≤ length image.old }
    requires label_len_bound { length label.now ≤ 88 }
    ensures { image.new ≡ replaced image.old number (record_of object berth label.now) }
{
    let at = 96 * number;
    let end = at + 96;
    let record = filled(object, berth, label);
    image[at..end].copy_from_slice(&record);
}

// Stores a label as it is given, if it is at most 88 bytes.
fn store_given(
    image: &mut [u8],
    number: usize,
    object: u32,
    berth: u16,
    label: &[u8],
) -> Result<(), Refusal>
    requires { 96 * number + 96 ≤ length image.old }
    ensures { Stores image.old number object berth label.now result image.new }
{
    if 88 < label.len() {
        return Err(Refusal::BadLayout(8));
    }
    put_at(image, number, object, berth, label);
    Ok(())
}

// Stores what a label joins to, if that is at most 88 bytes.
fn store_joined(
    image: &mut [u8],
    number: usize,
    object: u32,
    berth: u16,
    label: &[u8],
) -> Result<(), Refusal>
    requires number_in_bounds { 96 * number + 96 ≤ length image.old }
    requires label_value { takes_bytes label.now ≡ passes }
    ensures { Stores image.old number object berth (mended label.now) result image.new }
{
    let mut joined = [0u8; 88];
    match mending::mend(label, &mut joined) {
        Ok(counted) => {
            let size = counted.length;
            put_at(image, number, object, berth, &joined[..size]);
            Ok(())
        }
        Err(_) => Err(Refusal::BadLayout(8)),
    }
}

// 1 for the image, 1 for the label, then 6.
fn check_places(image: &[u8], number: usize, label: &[u8]) -> Result<(), Refusal>
    ensures { checked result ≡ in_order (over_image image.now ∷ takes_bytes label.now ∷ no_record image.now number ∷ []) }
{
    if image::MOST < image.len() {
        return Err(Refusal::OverLimit(image::MOST));
    }
    answers::check_bytes(label)?;
    image::check_number(image, number)
}

// Writes a record: refusals 1, 6 and 7.
pub fn write_record(
    image: &mut [u8],
    number: usize,
    object: u32,
    berth: u16,
    label: &[u8],
    form: Form,
) -> Result<(), Refusal>
    ensures { Writes image.old number object berth form label.now result image.new }
{
    check_places(image, number, label)?;
    if utf8::first_ill(label) < label.len() {
        return Err(Refusal::BadLayout(8));
    }
    match form {
        Form::AsGiven => store_given(image, number, object, berth, label),
        Form::Joined => store_joined(image, number, object, berth, label),
    }
}
