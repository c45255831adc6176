// The plan of a description (plans/specs/Cuts.antt), written into a lent list: a host makes it once, when a module is attached, and moves by it thousands of
// times a second.
#![tactic(auto)]

pub use calls::plan_of;

mod numbers; // numbers of 16 bits
mod joining; // the moves of all arguments, neighbours joined
mod lists; // the lists of a plan
mod calls; // the call: plan_of
