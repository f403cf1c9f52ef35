// The calls for C, and nothing else: include/pulphopper.h declares and documents them.
#![tactic(auto)]

mod answer;
mod calls;

pub use answer::Answer;
pub use calls::{
    pulphopper_mend, pulphopper_mend_units, pulphopper_name, pulphopper_rank, pulphopper_read_name,
};
