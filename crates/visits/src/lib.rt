// The lookup over supernodes (02 [1]): the record that a bitmap build hands back, rows of supernodes and hops in lent lists, and the
// way over them. It reads what any builder wrote and any damage besides, so it stands apart from the builder.
#![tactic(auto)]

mod limits;
mod looking;
mod masks;
mod record;
mod rows;

pub use limits::{EXTERNAL, INTERNAL, STEP};
pub use looking::{Winner, find_bitmap, lookup_bitmap};
pub use record::Bitmap;
pub use rows::{Supernodes, SupernodesMut};
