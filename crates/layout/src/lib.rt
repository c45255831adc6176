// The layout of a call (document 01, "Places"): the verdict on a description, 1 to 10, what its arguments take together, and one record for each.
#![tactic(auto)]

pub use deciding::{check, layout_of, layout_with};
pub use described::Described;
pub use lent_list::{begin_with, lay_out};
pub use needing::{StackNeed, needs_stack};
pub use placements::{Laying, Placement};

mod described; // a description and the table of its types
mod placements; // the record of one argument, and what is laid out after some of them
mod deciding; // the verdict 1 to 10, and the layout of any bytes
mod lent_list; // one record for each argument, into a list that the caller lends; 11
mod needing; // whether the stack is needed, at the first argument that goes there

use places::{ReturnPlace, Used};
use units::Bytes;

// What a description asks of a call as a whole.
#[derive(Clone, Copy)]
pub struct Layout {
    // After all arguments: registers used, the hidden address included; vector registers used; the end of the stack arguments.
    pub used: Used,
    // The stack area, rounded up to its alignment: 32 with an argument on it that is aligned to 32, and otherwise 16.
    pub area: Bytes,
    pub align: Bytes,
    // All values, packed.
    pub values: Bytes,
    pub returns: ReturnPlace,
    // The size of the returned type, 0 for void.
    pub returned: Bytes,
    // Whether a hidden address is in rdi.
    pub hidden: bool,
    // After the named arguments: where a walk starts.
    pub named: Used,
}
