// UTF-16 (document 02, #101; The Unicode Standard, section 3.9). A unit is a number of 16 bits,
// with no order of bytes.
#![tactic(auto)]

mod decode;
mod encode;
mod form;
mod text;

pub use decode::{read_at, unit_at};
pub use encode::{put_at, size_of};
pub use form::Utf16;
pub use text::{read_units, write_units};
