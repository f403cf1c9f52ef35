// wire: the wire form of the test programs `calls` and `calls2` (docs/CALLS.md). Numbers of 32 bits
// and units of 16, low byte first; the eight numbers of a call and the four of an answer; and the
// fill of a lent buffer. Every function takes every input.
#![tactic(auto)]

mod element;
mod head;
mod input;
mod lent;
mod numbers;
mod reply;
mod units;

pub use element::{Element, put, read};
pub use head::{Head, head_of};
pub use input::read_full;
pub use lent::{Lent, at_most, fill, if_so};
pub use reply::{Reply, counted, done, filled, put_reply, refused};
