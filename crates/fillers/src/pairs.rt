// The letters of filler groups as a constant table: I and F of each (document 01, 'Filler groups').
ghost use Rattle.std.specs.Prelude.{◌≡◌, length};
ghost use Rattle.fillers.specs.Inner.{Pairs};

// What stands for no number in the table: a byte to a number, where an Option would take two.
pub(crate) const NONE: u8 = 99;

// I and F of 3131 to 314E, in order; ten pairs a line, by hand: `rt fmt` would give each number a
// line.
static PAIRS: [u8; 60] = [
    0, 1, 1, 2, 99, 3, 2, 4, 99, 5, 99, 6, 3, 7, 4, 99, 5, 8, 99, 9, 99, 10, 99, 11, 99, 12, 99,
    13, 99, 14, 99, 15, 6, 16, 7, 17, 8, 99, 99, 18, 9, 19, 10, 20, 11, 21, 12, 22, 13, 99, 14, 23,
    15, 24, 16, 25, 17, 26, 18, 27,
];

// The table. It is lent, and never copied to the stack.
pub(crate) fn pairs() -> &'static [u8; 60]
    ensures { Pairs result.now }
{
    &PAIRS
}
