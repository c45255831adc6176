// Bringing the result back (document 02, request 2026-02): a returned value into the return image and the upper return image (request 2026-06), and out of
// them.
#![tactic(auto)]

pub use calls::{put_returned, take_returned};
pub use return_image::{Parts, length_for, parts_of};

mod return_image; // a value into the return images and out again
mod refusals; // 11 and 12
mod calls; // the calls: put_returned, take_returned
