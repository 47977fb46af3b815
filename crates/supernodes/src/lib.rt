// The builder of tree bitmap arrays (02 [1]): a table becomes rows of supernodes and their hops. The record and the lookup are
// `visits`', and stand here too, so that a caller who builds needs no other name.
#![tactic(auto)]

mod building;
mod limits;
mod maps;
mod nodes;
mod places;
mod queue;
mod ranges;
mod rows;

pub use building::build_bitmap;
pub use limits::NODE_ROW;
pub use table::{Entries, Refusal};
pub use visits::{Bitmap, Supernodes, SupernodesMut, find_bitmap, lookup_bitmap};
pub use walk::{Answer, LookupRefusal};
