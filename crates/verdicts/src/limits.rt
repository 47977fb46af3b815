// The numbers of the list of tries and of the way through it (02, [6]); `specs/Limits.antt` has `trie_row_cells` and `VISITS` for the promises,
// `trie_row` of `specs/Tries.antt` the columns.

// Numbers in a row of the list, one row a source trie: its floor, then its root stride, place and E, and the number of the trie to go on
// to. Rows of numbers in one list, as C passes it.
pub const TRIE_ROW: usize = 5;

pub const ROOT: usize = 1;

pub const PLACE: usize = 2;

pub const OWN_ELEMENTS: usize = 3;

pub const NEXT: usize = 4;

// The most source tries visited: one for each length of a destination, 0 to 32.
pub(crate) const VISITS: u32 = 33;

// Of a floor the last 16 bits count: it is below this.
pub(crate) const FLOORS: u32 = 65536;

// A root stride is held in a byte: it is at most this.
pub(crate) const LARGEST_BYTE: u32 = 255;
