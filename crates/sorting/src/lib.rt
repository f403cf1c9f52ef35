// The order of a label file's records, and the lines in which the ranker prints it (document 01,
// 'Programs').
#![tactic(auto)]

mod compare;
mod decimal;
mod insert;
mod lines;
mod records;

pub use lines::print;
pub use records::order;
