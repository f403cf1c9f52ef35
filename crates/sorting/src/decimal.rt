// A number in decimal digits: how many there are, and these digits in a buffer.
ghost use Rattle.std.specs.Prelude.{◌≡◌, ◌≤◌, length};
ghost use Rattle.laws.specs.Writing.{Room, Wrote};
ghost use Rattle.sorting.specs.Decimals.{decimal_digit, decimal_of};

// How many digits a number from 1,000 on has.
fn long_size(number: u32) -> usize
    requires { 1000 ≤ number }
    ensures { result ≡ length (decimal_of number) }
{
    match number {
        0..=9_999 => 4,
        10_000..=99_999 => 5,
        100_000..=999_999 => 6,
        1_000_000..=9_999_999 => 7,
        10_000_000..=99_999_999 => 8,
        100_000_000..=999_999_999 => 9,
        _ => 10,
    }
}

// How many digits a number has. Most numbers of records have three, so these come first.
pub(crate) fn decimal_size(number: u32) -> usize
    ensures { result ≡ length (decimal_of number) }
{
    if 1_000 <= number {
        return long_size(number);
    }
    if 100 <= number {
        return 3;
    }
    if 10 <= number {
        return 2;
    }
    1
}

// The last digit of a number, in ASCII.
fn digit(number: u32) -> u8
    ensures { result ≡ decimal_digit number }
{
    (0x30 + number % 10) as u8
}

// Writes a number's digits from `at` on, the last one first, and answers the index after them.
pub(crate) fn put_decimal(number: u32, out: &mut [u8], at: usize) -> usize
    requires { Room out.old at (decimal_of number) }
    ensures { Wrote out.old at (decimal_of number) result out.new }
{
    let end = at + decimal_size(number);
    let mut rest = number;
    let mut next = end - 1;
    // A `for` over the places from the last on would say no more plainly that the number ends it.
    while 10 <= rest {
        out[next] = digit(rest);
        rest /= 10;
        next -= 1;
    }
    out[next] = digit(rest);
    end
}
