// The names of syllables, written and read (document 01, 'Names').
#![tactic(auto)]

mod read;
mod strings;
mod write;

pub use read::read_name;
pub use write::name;
