// Which of two labels comes first (document 01, 'Ranking labels').
#![tactic(auto)]

mod bytes;
mod compare;
mod order;
mod text;

pub use bytes::rank_bytes;
pub use order::{compared, followed, number_of};
pub use text::rank;
