// Refusals, and the checks of a text and of the room in a lent buffer (document 01, 'Refusal
// numbers'). A call answers a Result whose error is a refusal.
#![tactic(auto)]

mod check;
mod refusal;

pub use check::{LIMIT, check_bytes, check_room, check_text, check_units, first_bad, is_bad};
pub use refusal::{Refusal, Told, refusal_line, tell};
