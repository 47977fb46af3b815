// The nodes of the binary trie in scratch rows of four numbers: left link, right link, mark, queue. A link is a row and one, 0 is none (so
// is a mark 0, which no entry has):
// so they lie in lent memory, of which each row takes four u64. Rows are written in preorder. (Reading and writing a column stands in
// choosers and tries too, for their rows: one for all would be a public call with a `requires`.)
ghost use Rattle.std.specs.Prelude.{◌≡◌, cond, suc, ◌+◌, ◌*◌, ◌<◌, ◌≤◌, length, set, eqb};
ghost use Rattle.supernodes.specs.Limits.{node_row};
ghost use Rattle.supernodes.specs.Linked.{node_column, NodeWritten, GrowAsk, Grown};

use crate::limits::{LEFT, MARK, NODE_ROW, RIGHT};
use crate::ranges::{first_mark, past, split};
use table::Entries;

// Column c of the row that the link k names; 0 where it names none.
#[tactic(auto, unfolding(crate::specs::Linked::node_column))]
pub(crate) fn asked(rows: &[u64], k: usize, c: usize) -> usize
    requires { (k * node_row ≤ length rows.now) × (c < node_row) }
    ensures { result ≡ node_column rows.now k c }
{
    if k == 0 {
        return 0;
    }
    rows[(k - 1) * NODE_ROW + c] as usize
}

// Sets column c of row x.
pub(crate) fn put(rows: &mut [u64], x: usize, c: usize, v: usize)
    requires { ((x + 1) * node_row ≤ length rows.old) × (c < node_row) }
    ensures { rows.new ≡ set rows.old (x * node_row + c) v }
{
    rows[x * NODE_ROW + c] = v as u64;
}

fn write_node(rows: &mut [u64], x: usize, left: usize, right: usize, mark: usize)
    requires { (x + 1) * node_row ≤ length rows.old }
    ensures { NodeWritten rows.old x left right mark rows.new }
{
    put(rows, x, LEFT, left);
    put(rows, x, RIGHT, right);
    put(rows, x, MARK, mark);
}

// The link of what was written from row x to row next: 0 where nothing was.
pub(crate) fn link(x: usize, next: usize) -> usize
    requires { x ≤ next }
    ensures { result ≡ cond (eqb x next) 0 (suc x) }
{
    if x == next {
        return 0;
    }
    x + 1
}

// Writes the trie of the entries from..to, which start with the same d bits, from row `used` on; returns the next free row. (Numbers
// and no struct of d, from and to: all three are others in each call.)
pub(crate) fn grow(
    rows: &mut [u64],
    width: u32,
    entries: &Entries,
    d: u32,
    from: usize,
    to: usize,
    used: usize,
) -> usize
    requires { GrowAsk rows.old width entries.now.value.now entries.now.length.now entries.now.hop.now d from to used }
    ensures { Grown rows.old width entries.now.value.now entries.now.length.now entries.now.hop.now d from to used result rows.new }
{
    if from == to {
        return used;
    }
    let first = past(entries.length, d, from);
    let mark = first_mark(entries.length, entries.hop, d, from);
    if first == to {
        write_node(rows, used, 0, 0, mark);
        return used + 1;
    }
    let mid = split(entries.value, width - d - 1, first, to);
    let next = grow(rows, width, entries, d + 1, first, mid, used + 1);
    let end = grow(rows, width, entries, d + 1, mid, to, next);
    let left = link(used + 1, next);
    let right = link(next, end);
    write_node(rows, used, left, right, mark);
    end
}
