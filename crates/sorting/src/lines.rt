// The lines that the ranker prints: record numbers in decimal, one a line.
ghost use Rattle.std.specs.Prelude.{◌≡◌, ◌≤◌, length};
ghost use Rattle.answers.specs.Checks.{no_room};
ghost use Rattle.answers.specs.Answers.{checked};
ghost use Rattle.sorting.specs.Printing.{number_line, Prints};
ghost use Rattle.laws.specs.Writing.{Room, Wrote, Fronts};
ghost use Rattle.laws.specs.Lists.{each};

use crate::decimal;
use answers::Refusal;
use labels::ImageRefusal;

// The length of a number's line.
fn line_size(number: u32) -> usize
    ensures { result ≡ length (number_line number) }
{
    decimal::decimal_size(number) + 1
}

// Writes a number's line from `at` on, and answers the index after it.
fn put(number: u32, out: &mut [u8], at: usize) -> usize
    requires { Room out.old at (number_line number) }
    ensures { Wrote out.old at (number_line number) result out.new }
{
    let end = decimal::put_decimal(number, out, at);
    out[end] = 0x0A;
    end + 1
}

// The most records of an image.
const MOST: usize = 682;

// The length of the numbers' lines.
fn lines_count(numbers: &[u32]) -> usize
    requires { length numbers.now ≤ 682 }
    ensures { result ≡ length (each number_line numbers.now) }
{
    let mut size = 0;
    for number in numbers {
        size += line_size(*number);
    }
    size
}

// The lines of an image's records are never longer.
const ENOUGH: usize = 2618;

// The check of the room: 3. If the room is enough for every image, nothing is counted.
fn check_lines_room(numbers: &[u32], room: usize) -> Result<(), Refusal>
    requires count_bound { length numbers.now ≤ 682 }
    requires size_bound { length (each number_line numbers.now) ≤ 2618 }
    ensures { checked result ≡ no_room room (length (each number_line numbers.now)) }
{
    if ENOUGH <= room {
        return Ok(());
    }
    answers::check_room(room, lines_count(numbers))
}

// Writes the numbers' lines to the front of `out`, which has room for them.
fn put_lines(numbers: &[u32], out: &mut [u8]) -> usize
    requires { length (each number_line numbers.now) ≤ length out.old }
    ensures { Fronts (each number_line numbers.now) out.old result out.new }
{
    let mut at = 0;
    for number in numbers {
        at = put(*number, out, at);
    }
    at
}

// Writes the lines of an image's order to the front of `out`: refusals 1, 6, 7 and 3.
pub fn print(image: &[u8], out: &mut [u8]) -> Result<usize, ImageRefusal>
    ensures { Prints image.now out.old result out.new }
{
    let mut numbers = [0u32; MOST];
    let count = crate::records::order(image, &mut numbers)?;
    let sorted = &numbers[..count];
    check_lines_room(sorted, out.len())?;
    Ok(put_lines(sorted, out))
}
