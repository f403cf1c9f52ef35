// Mending of UTF-16, for the clipboard (document 02, #101): a text of units read, joined and
// written as units, in one pass.
#![tactic(auto)]

mod length;
mod lone;
mod spelled;
mod text;
mod unchanged;

pub use text::mend;
