// The tidy form of a description (document 02, request 2026-03): only the types that return and arguments reach, equal ones once, each with a run of its own.
#![tactic(auto)]

pub use calls::{tidy, tidy_length};

mod marking; // a mark for each type, equal for equal ones
mod numbering; // the numbers of the types, as each is first completed
mod writing; // the bytes of the tidy form, one after the other
mod calls; // the calls: tidy_length, tidy
