// The most levels of a trie, named once (01, "Stride choices"); `specs/Limits.antt` has the same for the promises. The widest
// address is the table's.

pub const LEVELS: u32 = 32;

// Every hop is below this.
pub(crate) const HOPS: u32 = 65536;
