// The scratch rows of the 1-bit trie (specs/Scratch.antt has their columns): how a number of a row is read, by its link, and written. A
// link is a row and one, 0 is none, and so is a mark 0, which no entry has: that is how the lent numbers hold them, and an Option would be
// made and unmade at each read. Costs and choices go through these; the making of rows, which knows its row, reads in place.
ghost use Rattle.std.specs.Prelude.{◌≡◌, ◌+◌, ◌*◌, ◌<◌, ◌≤◌, length, set};
ghost use Rattle.choosers.specs.Scratch.{ROW, ask};

use crate::limits::SLOTS;

// The columns of a row: links, marks, then the depth, spare ones, the least costs and their strides, with one level left first.
pub const DEPTH: usize = 4;

pub(crate) const COST: usize = 8;

pub(crate) const STRIDE: usize = COST + SLOTS;

// With r levels left the two stand r columns after these.
pub(crate) const BEFORE_COSTS: usize = COST - 1;

pub const BEFORE_STRIDES: usize = STRIDE - 1;

// Numbers in a row.
pub const ROW: usize = STRIDE + SLOTS;

// Column c of the row that the link k names; 0 where it names none. (Each call asks that the row is there: rows are lent to be written.)
#[tactic(auto, unfolding(crate::specs::Scratch::ask))]
pub(crate) fn asked(rows: &[u64], k: usize, c: usize) -> usize
    requires { (k * ROW ≤ length rows.now) × (c < ROW) }
    ensures { result ≡ ask rows.now k c }
{
    if k == 0 {
        return 0;
    }
    rows[(k - 1) * ROW + c] as usize
}

// Sets column c of row x.
pub(crate) fn put(rows: &mut [u64], x: usize, c: usize, v: usize)
    requires { ((x + 1) * ROW ≤ length rows.old) × (c < ROW) }
    ensures { rows.new ≡ set rows.old (x * ROW + c) v }
{
    rows[x * ROW + c] = v as u64;
}
