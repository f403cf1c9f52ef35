// Simple letters and clusters (document 01, 'Simple letters and clusters').
#![tactic(auto)]

mod gather;
mod gathered;
mod simple;
mod table;

pub use gathered::gathered_form;
pub use simple::simple_form;
