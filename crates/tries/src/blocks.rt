// The element rows of document 01, "The element rows", from the 1-bit trie in the scratch rows: level by level, each level by
// one walk of the trie that goes left to right and carries the row of the next block and the row of the next child block.
// The scratch rows are only read. One builder serves every kind of stride choice (proved for any that can be built).
ghost use Rattle.std.specs.Prelude.{◌≡◌, ◌&&◌, ◌+◌, ◌*◌, ◌^◌, ◌<◌, ◌≤◌, eqb, leb, length};
ghost use Rattle.table.specs.Longest.{newer};
ghost use Rattle.walk.specs.Limits.{WIDTH};
ghost use Rattle.choosers.specs.Scratch.{ROW, MARKS, DEPTH, ask};
ghost use Rattle.walk.specs.Lent.{held, SameLists};
ghost use Rattle.tries.specs.Filling.{CanFill, Fills, CanBlock, WritesBlock, CanPass, Passes, CanLevel, WritesLevel, CanLay, Lays};

use crate::scratch::Source;
use crate::writing::{bare, write};
use choosers::DEPTH;
use walk::RowsMut;

// (A call, so that each use has 2 ^ n from one clause.)
fn power(n: usize) -> usize
    requires { n ≤ WIDTH }
    ensures { result ≡ 2 ^ n }
{
    1 << n
}

// v where the link k names a row, else 0.
fn given(k: usize, v: usize) -> usize
    ensures there { 0 < k → result ≡ v }
    ensures not { k ≡ 0 → result ≡ 0 }
{
    if k == 0 { 0 } else { v }
}

// (A mark stays a number, with its bound in the clauses: a struct for it would be made and unmade at each row. From here on k, r, base, best
// and free are numbers too: each call goes on with others.)

// The best mark below the link k on a side, where `best` is the one so far in the block: a nonzero mark is the new best.
fn best_below(trie: &Source, k: usize, side: usize, best: u32) -> u32
    requires { (k * ROW ≤ length trie.now.rows.now) × (side < 2) × (ask trie.now.rows.now k (2 + side) < MARKS) × (best < MARKS) }
    ensures value { result ≡ newer (ask trie.now.rows.now k (2 + side)) best }
    ensures small { result < MARKS }
{
    let mark = trie.asked(k, 2 + side);
    if mark == 0 {
        return best;
    }
    mark as u32
}

// Writes the row at the end of a path where a child block begins, at the node of link k. Returns the next free row.
fn leaf(
    trie: &Source,
    k: usize,
    r: usize,
    base: usize,
    best: u32,
    free: usize,
    rows: &mut RowsMut,
) -> usize
    requires { (0 < k) × (best < MARKS) × CanFill trie.now.rows.now trie.now.plan.now k 0 r base free (held rows.old) }
    ensures same { SameLists rows.old rows.new }
    ensures wrote { Fills trie.now.rows.now trie.now.plan.now k 0 r base best free
        (held rows.old) result
        (held rows.new) }
{
    let s = trie.stride_at(k, r);
    write(rows, base, best, free, s);
    free + power(s)
}

// Writes the 2 ^ c rows from `base` on, below the trie at link k, where `best` is the mark so far in the block. Child blocks have
// r levels left and lie from row `free` on; returns the row after them. Most rows of a wide block have no node, so those are written
// in one go.
fn fill(
    trie: &Source,
    k: usize,
    c: usize,
    r: usize,
    base: usize,
    best: u32,
    free: usize,
    rows: &mut RowsMut,
) -> usize
    requires { (best < MARKS) × CanFill trie.now.rows.now trie.now.plan.now k c r base free (held rows.old) }
    ensures same { SameLists rows.old rows.new }
    ensures wrote { Fills trie.now.rows.now trie.now.plan.now k c r base best free
        (held rows.old) result
        (held rows.new) }
{
    if k == 0 {
        bare(rows, base, base + power(c), best);
        return free;
    }
    if c == 0 {
        return leaf(trie, k, r, base, best, free, rows);
    }
    let p = best_below(trie, k, 0, best);
    let q = best_below(trie, k, 1, best);
    let k0 = trie.asked(k, 0);
    let k1 = trie.asked(k, 1);
    let d = c - 1;
    let mid = base + power(d);
    let f = fill(trie, k0, d, r, base, p, free, rows);
    fill(trie, k1, d, r, mid, q, f, rows)
}

// Where the next block of a level lies, and where the next child block does.
#[derive(Clone, Copy)]
struct Front {
    base: usize,
    free: usize,
}

// Writes the block of the node at link k, with r levels left, from row `to.base` on; its child blocks lie from row `to.free` on.
fn block(trie: &Source, k: usize, r: usize, to: Front, rows: &mut RowsMut) -> Front
    requires { (0 < k) × CanBlock trie.now.rows.now trie.now.plan.now k r to.base to.free (held rows.old) }
    ensures same { SameLists rows.old rows.new }
    ensures wrote { WritesBlock trie.now.rows.now trie.now.plan.now k r to.base to.free
        (held rows.old) result.base result.free
        (held rows.new) }
{
    let s = trie.stride_at(k, r);
    let base = to.base;
    let free = to.free;
    let q = r - 1;
    let f = fill(trie, k, s, q, base, 0, free, rows);
    let end = base + power(s);
    Front { base: end, free: f }
}

// Whether the block that is asked for begins here: none is to be passed, nor a level.
fn is_own(c: usize, n: usize) -> bool
    ensures { result ≡ (eqb c 0 && eqb n 0) }
{
    c == 0 && n == 0
}

// Whether a block begins at link k whose subtrie is too shallow for n further ones.
fn is_shallow(trie: &Source, k: usize, c: usize, n: usize) -> bool
    requires { k * ROW ≤ length trie.now.rows.now }
    ensures { result ≡ (eqb c 0 && leb (ask trie.now.rows.now k DEPTH) n) }
{
    if c != 0 {
        return false;
    }
    trie.asked(k, DEPTH) <= n
}

// From a node's children on: the levels to the next block, the blocks to pass after it, and the levels left with it.
#[derive(Clone, Copy)]
struct Onward {
    gap: usize,
    blocks: usize,
    levels: usize,
}

// What lies ahead of the children of link k, where c, n and r are the same for the node itself: a block that begins at it is passed.
fn pass(trie: &Source, k: usize, c: usize, n: usize, r: usize) -> Onward
    requires { c ≡ 0 → CanPass trie.now.rows.now trie.now.plan.now k n r }
    ensures { Passes trie.now.rows.now trie.now.plan.now k c n r result.gap result.blocks result.levels }
{
    if c != 0 {
        return Onward {
            gap: c - 1,
            blocks: n,
            levels: r,
        };
    }
    let s = trie.stride_at(k, r);
    Onward {
        gap: s - 1,
        blocks: n - 1,
        levels: r - 1,
    }
}

// Writes the blocks of level n below the trie at link k, left to right, from row `to.base` on. The next block on a path begins c
// levels lower, with r levels left; w address bits are left. The n-th block after one begins at least n levels lower, so a subtrie
// that is too shallow for it is left. There are few calls: one a node, in which a block that begins there is passed too, and none for a side
// without a node where the other has one.
fn level(
    trie: &Source,
    k: usize,
    w: usize,
    c: usize,
    n: usize,
    r: usize,
    to: Front,
    rows: &mut RowsMut,
) -> Front
    requires { CanLevel trie.now.rows.now trie.now.plan.now k w c n r to.base to.free (held rows.old) }
    ensures same { SameLists rows.old rows.new }
    ensures wrote { WritesLevel trie.now.rows.now trie.now.plan.now k w c n r to.base to.free
        (held rows.old) result.base result.free
        (held rows.new) }
{
    if k == 0 {
        return to;
    }
    if is_own(c, n) {
        return block(trie, k, r, to, rows);
    }
    if is_shallow(trie, k, c, n) {
        return to;
    }
    let a = pass(trie, k, c, n, r);
    let d = a.gap;
    let m = a.blocks;
    let q = a.levels;
    let k0 = trie.asked(k, 0);
    let k1 = trie.asked(k, 1);
    let v = w - 1;
    if k0 == 0 {
        return level(trie, k1, v, d, m, q, to, rows);
    }
    let then = level(trie, k0, v, d, m, q, to, rows);
    if k1 == 0 {
        return then;
    }
    level(trie, k1, v, d, m, q, then, rows)
}

// Writes all rows of the trie at link `root`, level by level, and returns their number E. `width` is the number of address
// bits, `levels` the level limit.
pub(crate) fn lay(
    trie: &Source,
    root: usize,
    width: usize,
    levels: usize,
    rows: &mut RowsMut,
) -> usize
    requires { CanLay trie.now.rows.now trie.now.plan.now root width levels (held rows.old) }
    ensures same { SameLists rows.old rows.new }
    ensures wrote { Lays trie.now.rows.now trie.now.plan.now root width levels
        (held rows.old) result
        (held rows.new) }
{
    let first = given(root, power(trie.stride_at(root, levels)));
    let mut to = Front {
        base: 0,
        free: first,
    };
    for n in 0..levels {
        to = level(trie, root, width, 0, n, levels, to, rows);
    }
    to.base
}
