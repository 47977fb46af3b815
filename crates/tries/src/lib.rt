// The tries: the builder of element rows, and the build. The choosers, the record and the lookup are of the crates below, and stand here
// too, so that a caller who builds needs no other name.
#![tactic(auto)]

mod blocks;
mod building;
mod limits;
mod scratch;
mod writing;

pub use building::{build, is_crowded};
pub use choosers::{Chosen, Kind, ROW, choose};
pub use limits::ELEMENTS;
pub use table::{Entries, Refusal, WIDTH};
pub use walk::{Answer, LEVELS, LookupRefusal, Record, Rows, RowsMut, lookup};
