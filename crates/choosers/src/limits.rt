// The limits of the choosers, named once (`specs/Limits.antt` has the same ones for the promises, and two more that are in no line of
// code). The widest address is the table's, the most levels are the lookup's.
use walk::LEVELS;

// The most levels, as a number of places.
pub(crate) const SLOTS: usize = LEVELS as usize;

// A stride is held in a byte: it is below this.
pub(crate) const BYTE: usize = 256;

// Every length is below this: hop and length of an entry are one mark, `hop * LENGTHS + length` (layout's Marks.antt has the same one).
// One number and no struct: a row has one column for the mark of each side.
pub const LENGTHS: usize = 256;

// Costs are held here: above what any choice for the widest address costs, so it never bites.
pub(crate) const COST_CAP: u64 = 8589934592;
