// Code points and syllables: the sort of a code point, one step of taking it apart, the full parts
// of a code point and of a text (document 01, 'Sorts of characters', 'Syllables').
#![tactic(auto)]

mod parts;
mod sort;
mod step;

pub use parts::{Whole, full_parts, full_parts_of};
pub use sort::{Make, Sort, sort_of, sorter};
pub use step::{Parts, one_step, parts_of};
