// Mending: bytes read, joined and written as UTF-8 in one pass (document 01, 'Bytes').
#![tactic(auto)]

mod character;
mod fast;
mod length;
mod lone;
mod spelled;
mod text;
mod unchanged;

pub use character::{general_at, goes_on};
pub use fast::character_at;
pub use length::Count;
pub use text::{At, mend};
