// Encoding forms: what is read, written and counted in any of them, and how far damage reaches. No
// one form here: UTF-8 is in crate utf8, UTF-16 in crate utf16. Definitions stand in specs/, laws in
// proofs/, and the types of what reading answers in answer; what an encoding form is to the code
// stands in form, and whole texts in any of them in text.
#![tactic(auto)]

mod answer;
mod form;
mod text;

pub use answer::{Counted, Taken};
pub use form::EncodingForm;
pub use text::{read_text, write_text};
