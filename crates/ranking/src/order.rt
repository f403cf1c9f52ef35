// Where one label stands to another: before, equal or after, which is std's `Ordering`. `compared`
// and `followed` are std's `cmp` and `then`: they stay, since docs/PROMISES.md promises them.
ghost use Rattle.std.specs.Prelude.{◌≡◌};
ghost use Rattle.ranking.specs.Ranking.{by_value, then_by, order_number};

use std::cmp::Ordering;

// Two numbers, by value.
#[tactic(auto, unfolding(crate::specs::Ranking::by_value))]
pub fn compared(first: u32, second: u32) -> Ordering
    ensures { result ≡ by_value first second }
{
    first.cmp(&second)
}

// What the first comparison says, or if that is equal, what the next one says.
pub fn followed(order: Ordering, next: Ordering) -> Ordering
    ensures { result ≡ then_by order next }
{
    order.then(next)
}

// The number of each answer, for callers that take a number.
pub fn number_of(order: Ordering) -> u32
    ensures { result ≡ order_number order }
{
    match order {
        Ordering::Less => 0,
        Ordering::Equal => 1,
        Ordering::Greater => 2,
    }
}
