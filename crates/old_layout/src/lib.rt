// The layout of a call of the 386 kind (request 2026-12): the verdict on a description, 1 to 6, 28 and 7 to 10, and what its arguments take together.
#![tactic(auto)]

pub use deciding::{old_check, old_layout_of, old_layout_with};

mod described; // a description that 1 to 9 do not refuse
mod laying; // the arguments, one behind the other, and where the value is returned
mod deciding; // the verdict, and the layout of any bytes

use units::Bytes;

// Where a value is returned; edx has the upper half of an 8-byte integer.
#[derive(Clone, Copy, Debug, PartialEq, Eq)]
pub enum OldReturn {
    Void,
    Memory,
    Eax,
    EdxEax,
    St0,
}

// What a description asks of a call as a whole.
#[derive(Clone, Copy, Debug, PartialEq, Eq)]
pub struct OldLayout {
    // The stack area, rounded up to 16, the hidden address in it.
    pub area: Bytes,
    // All values, packed.
    pub values: Bytes,
    pub returns: OldReturn,
    // The size of the returned type, 0 for void.
    pub returned: Bytes,
    // Whether a hidden address is at offset 0, and what the callee pops of it.
    pub hidden: bool,
    pub popped: Bytes,
    // Behind the named arguments: where a walk starts.
    pub start: Bytes,
}
