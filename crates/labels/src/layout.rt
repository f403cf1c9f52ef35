// A record's layout: a fresh record, and the first byte that breaks the layout (document 01,
// 'Refusal numbers').
ghost use Rattle.std.specs.Prelude.{◌≡◌, length, position, ◌+◌, ◌*◌, ◌≤◌};
ghost use Rattle.labels.specs.Records.{fresh_record, is_set, layout};
ghost use Rattle.answers.specs.Answers.{checked};
ghost use Rattle.labels.specs.Images.{record_at, takes_record};
ghost use Rattle.labels.specs.Inner.{faulty};

use crate::image;
use answers::Refusal;

// A fresh record.
pub fn fresh() -> [u8; 96]
    ensures value { 96 ≡ length result }
    ensures value_2 { result ≡ fresh_record }
{
    [0; 96]
}

// The index of the first byte that is not zero.
fn first_set(bytes: &[u8]) -> Option<usize>
    ensures { result ≡ position is_set bytes.now }
{
    bytes.iter().position(|byte| *byte != 0)
}

// The first byte that breaks a record's layout.
fn fault(bytes: &[u8]) -> Option<usize>
    requires { length bytes.now ≡ 96 }
    ensures { layout bytes.now ≡ faulty result }
{
    let size = bytes[6] as usize;
    if 88 < size {
        return Some(6);
    }
    if bytes[7] != 0 {
        return Some(7);
    }
    let end = 8 + size;
    let ill = utf8::first_ill(&bytes[8..end]);
    if ill < size {
        return Some(8 + ill);
    }
    let set = first_set(&bytes[end..])?;
    Some(end + set)
}

// The first byte that breaks the layout of a record of an image.
pub(crate) fn fault_at(image: &[u8], number: usize) -> Option<usize>
    requires { 96 * number + 96 ≤ length image.now }
    ensures { layout (record_at image.now number) ≡ faulty result }
{
    let at = 96 * number;
    let end = at + 96;
    fault(&image[at..end])
}

// 7 if that record breaks its layout.
fn check_record(image: &[u8], number: usize) -> Result<(), Refusal>
    requires { 96 * number + 96 ≤ length image.now }
    ensures { checked result ≡ layout (record_at image.now number) }
{
    if let Some(byte) = fault_at(image, number) {
        return Err(Refusal::BadLayout(byte));
    }
    Ok(())
}

// The checks before a record is read: 1, 6, 7.
pub(crate) fn check_one(image: &[u8], number: usize) -> Result<(), Refusal>
    ensures { checked result ≡ takes_record image.now number }
{
    if image::MOST < image.len() {
        return Err(Refusal::OverLimit(image::MOST));
    }
    image::check_number(image, number)?;
    check_record(image, number)
}
