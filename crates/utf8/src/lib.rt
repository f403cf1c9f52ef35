// UTF-8 (document 01, 'Bytes'; The Unicode Standard, section 3.9).
#![tactic(auto)]

mod decode;
mod encode;
mod form;
mod text;

pub use decode::{byte_at, first_ill, is_continuation, read_at};
pub use encode::{put_at, size_of};
pub use form::Utf8;
pub use text::{read_text, write_text};
