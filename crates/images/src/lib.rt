// The three images (document 01, "Images and moving bytes"; document 02, request 2026-06): one argument's bytes into them and out again, and the hidden
// address in rdi. Where a register lies in its image stands in `argument_bytes` and nowhere else.
// The images are three parameters, as `cb_place_values` and `cb_gather_values` have them: each is written by itself, and a struct of the three would be made for
// the call and taken apart in it.
#![tactic(auto)]

pub use argument_bytes::{address_of, copy_word, gather_one, place_one};
pub use hidden_address::{address_in, put_address};

mod hidden_address; // the hidden address, written into rdi and read
mod argument_bytes; // one argument's bytes into the images and out again
