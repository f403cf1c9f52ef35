// The order of an image's records, in a lent buffer: each record is put in its place among those
// before it. The place is found by halves.
ghost use Rattle.std.specs.Prelude.{◌≡◌, ◌≤◌, length};
ghost use Rattle.laws.specs.Writing.{front};
ghost use Rattle.answers.specs.Checks.{passes};
ghost use Rattle.labels.specs.Images.{takes_image, count_of};
ghost use Rattle.sorting.specs.Sorting.{standing, Sorted, order_of, Orders};
ghost use Rattle.sorting.specs.Inner.{PlaceFound};

use crate::compare::comes_before;
use crate::insert::insert;
use labels::ImageRefusal;

// The place of a record among numbers that are sorted.
fn place_of(image: &[u8], numbers: &[u32], number: u32) -> usize
    requires { Sorted (standing image.now) numbers.now }
    ensures { PlaceFound image.now numbers.now number result }
{
    let mut low = 0;
    let mut high = numbers.len();
    // A `while`: `partition_point` ranks once more for a record than docs/DECISIONS.md, 55, says.
    while low < high {
        let middle = low + (high - low) / 2;
        if comes_before(image, numbers[middle], number) {
            low = middle + 1;
        } else {
            high = middle;
        }
    }
    low
}

// Writes the order to the front of `out`, which has room for it.
fn order_into(image: &[u8], count: usize, out: &mut [u32])
    requires count_value { count ≡ count_of image.now }
    requires image_value { takes_image image.now ≡ passes }
    requires count_in_bounds { count ≤ length out.old }
    ensures { out.new ≡ front (order_of image.now) out.old }
{
    for number in 0..count {
        let at = place_of(image, &out[..number], number as u32);
        insert(out, number, at, number as u32);
    }
}

// Writes the order of an image's records to the front of `out`: refusals 1, 6, 7 and 3.
pub fn order(image: &[u8], out: &mut [u32]) -> Result<usize, ImageRefusal>
    ensures { Orders image.now out.old result out.new }
{
    let count = labels::read_image(image)?;
    answers::check_room(out.len(), count)?;
    order_into(image, count, out);
    Ok(count)
}
