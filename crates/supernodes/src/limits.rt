// The numbers of a scratch row, named once.
use visits::{EXTERNAL, INTERNAL};

// Numbers in a scratch row, and what each is.
pub const NODE_ROW: usize = 4;

pub(crate) const LEFT: usize = 0;

pub(crate) const RIGHT: usize = 1;

pub(crate) const MARK: usize = 2;

pub(crate) const QUEUE: usize = 3;

// The levels from a supernode to its children.
pub(crate) const STEP: usize = visits::STEP as usize;

// All places of a supernode: its own, and those where its children begin.
pub(crate) const PLACES: usize = INTERNAL + EXTERNAL;
