// Placing and gathering (document 01, "Images and moving bytes"): the bytes of all values, packed, into the three images and out again.
#![tactic(auto)]

pub use calls::{gather_values, place_values};
pub use refusals::{broken_byte, is_bool, wrong_address};

mod filling; // the images filled, and the values gathered
mod refusals; // 11, 27 and 12
mod calls; // the calls: place_values, gather_values
