// The list of a text's characters, a line each (document 01, 'Programs', the lister).
#![tactic(auto)]

mod hex;
mod lines;

pub use lines::list;
