// streams: what programs do with the streams that they read and write. Every function takes every
// reader and every writer.
#![tactic(auto)]

mod input;
mod output;

pub use input::read_full;
pub use output::write_front;
