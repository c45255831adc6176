// The types of the Intel386 supplement (request 2026-12): the sizes and alignments that its basic types have, beside document 01's rules for aggregates, and which codes it leaves out; the
// refusals 1 to 6, 28 and 7; what may be asked about one type.
#![tactic(auto)]

pub use asking::{old_extent, old_member_run, old_run_at};
pub use refusals::{judge, kept_refusal};

mod conditions; // bit 1 of byte 6, and the codes that are left out
mod extents; // the size and alignment of one type
mod refusals; // the table of all sizes; refusals 1 to 6, 28 and 7, with the type that 6 and 7 name
mod asking; // what may be asked about one type
