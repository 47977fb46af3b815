// The sizes of the rooms of a run, named once. `specs/Limits.antt` has the same ones for the promises.

// The bytes of a run's text: a mebibyte, more than the cases of any run have.
pub const TEXT: usize = 1048576;

// The places of a table's lists: a table has at most 65,536 entries, and the cases go past that.
pub const PLACES: usize = 65600;

// The words of scratch: 8,333 rows of a trie's 72, of the 8 MiB of stack that a program has. A table of 65,536 entries is refused
// for them by the choosers and the build; the tree bitmap of some such tables, whose rows have 4 words, is built.
pub const SCRATCH: usize = 600000;

// The places of an element list: more than the rows of the largest build.
pub const ROWS: usize = 20000;

// The places of a list of supernode rows: enough for 65,536 entries of 19 bits that share their first 3, and fewer than a table can
// need, so that builds are refused for them.
pub const SUPERNODES: usize = 8740;

// The places of a hop list: one more than a table has entries.
pub const HOP_ROWS: usize = 65537;

// The numbers of a list of tries: more than the 5,120 of 1,024 source tries, the most that rules call for.
pub const LIST: usize = 8740;

// The hops of a rising table go up to this one, and begin again.
pub const LAST_HOP: usize = 65535;

// The bits of a value, and the largest step of rising values: with it the second is past these bits.
pub const VALUE_BITS: u32 = 32;

pub const STEP_CAP: u64 = 4294967296;
