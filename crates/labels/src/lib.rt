// The label file: records of 96 bytes, read, judged and written in their places (document 01, 'The
// label file').
#![tactic(auto)]

mod image;
mod layout;
mod read;
mod record;
mod write;

pub use image::{ImageRefusal, read_image};
pub use layout::fresh;
pub use read::read_record;
pub use record::{Entry, berth_at, label_at};
pub use write::{Form, write_record};
