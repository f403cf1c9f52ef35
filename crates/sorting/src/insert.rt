// A number put in its place among others in a lent buffer.
ghost use Rattle.std.specs.Prelude.{◌≤◌, ◌<◌, length};
ghost use Rattle.sorting.specs.Inner.{Inserted};

// Puts a number at index `at` among the first `count`: those from the index on move up by one.
pub(crate) fn insert(numbers: &mut [u32], count: usize, at: usize, number: u32)
    requires at_le_count { at ≤ count }
    requires count_in_bounds { count < length numbers.old }
    ensures { Inserted numbers.old count at number numbers.new }
{
    numbers.copy_within(at..count, at + 1);
    numbers[at] = number;
}
