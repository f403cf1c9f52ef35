// Joining letters into syllables (document 01, 'Syllables').
#![tactic(auto)]

mod joiner;
mod role;
mod text;

pub use joiner::{Emitted, Joiner, Open, Outcome, flush, put, start, step};
pub use role::{Role, joined, role_of};
pub use text::join;
