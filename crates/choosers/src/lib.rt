// The stride choosers: a table's 1-bit trie in lent scratch rows, and the strides of each kind that cost the fewest elements. A plan
// leaves both in scratch for a builder; a chooser answers cost and strides, and clears it.
#![tactic(auto)]

mod caps;
mod chooser;
mod costs;
mod counting;
mod fixed;
mod limits;
mod rows;
mod scratch;

pub use chooser::{Chosen, Kind, Plan, choose, plan_choice};
pub use limits::LENGTHS;
pub use scratch::{BEFORE_STRIDES, DEPTH, ROW};
