// The walk over unnamed arguments (document 01, "Station and walk"; 000, section 3.5.7): opened, checked, stepped, and the next argument shown where it lies.
// The calls take station, seat, walk and images one by one, as cb_step and cb_show lend them and docs/CONTRACTS.md names them.
#![tactic(auto)]

pub use checking::checked;
pub use opening::open_walk;
pub use showing::{Part, Shown, show, show_number, shown_at};
pub use stepping::step;

mod fetching; // where a walk stands, fetches and stands then, worked out
mod opening; // opening a walk
mod checking; // whether a walk goes on where it stands: every check of a step but that of the out buffer
mod stepping; // the step of a walk
mod showing; // where the next argument lies, and the part that shows it

use units::{Bytes, Registers};

// Where a walk stands: the attachment it was opened under, the next argument, gp_offset, fp_offset and the overflow offset. No ghost
// field bounds the offsets: a host may lend any record, and one that does not stand where it says is refused under 18.
#[repr(C)]
#[derive(Clone, Copy, Debug, PartialEq, Eq)]
pub struct Walk {
    pub number: u32,
    pub position: usize,
    pub general: Bytes,
    pub vector: Bytes,
    pub overflow: Bytes,
}

// Where an argument is fetched: an offset of the register image for each eightbyte, or one of the stack image.
#[derive(Clone, Copy, Debug, PartialEq, Eq)]
pub enum Fetch {
    One(Bytes),
    Two(Bytes, Bytes),
    Stack(Bytes),
}

// num_gp and num_fp: the registers that some eightbytes take.
#[derive(Clone, Copy, Debug, PartialEq, Eq)]
pub struct Counts {
    pub general: Registers,
    pub vector: Registers,
}
