// Moving by a plan (how each byte of a call is moved, as numbers) that lies in the host's memory: any numbers in it are safe, and those that are no plan
// are refused before a byte is written.
#![tactic(auto)]

pub use gathering::gather_by_plan;
pub use placing::place_by_plan;
pub use returned::{put_by_plan, take_by_plan};

mod head; // the numbers of a plan, and its lists
mod moves; // the moves of a list, judged and made
mod judging; // whether numbers are a plan
mod placing; // place_by_plan
mod gathering; // gather_by_plan
mod returned; // put_by_plan, take_by_plan
