// The 1-bit trie of a table, made in scratch rows that are all 0: one entry after the other. Each row on an entry's way is told how
// deep the trie then is below it.
ghost use Rattle.std.specs.Prelude.{◌≡◌, ◌+◌, ◌*◌, ◌<◌, ◌≤◌, max, length, set};
ghost use Rattle.choosers.specs.Scratch.{ROW, DEPTH, MARKS};
ghost use Rattle.choosers.specs.Trees.{col};
ghost use Rattle.choosers.specs.Inserting.{Downed, InsertIn, Inserted};
ghost use Rattle.walk.specs.Limits.{WIDTH};
ghost use Rattle.layout.specs.Marks.{entry_mark};
ghost use Rattle.choosers.specs.Limits.{GROWS};
ghost use Rattle.choosers.specs.LevelCounts.{CanCount, LevelsAdded};
ghost use Rattle.choosers.specs.Making.{AddIn, Added, CountIn, AddCounted, MakeIn, MakeOut};

use crate::limits::LENGTHS;
use crate::scratch::{DEPTH, ROW, put};
use table::Entries;

// The row of the child at side s of row x; where there is none, the row `used` is taken for it.
fn down(rows: &mut [u64], x: usize, s: usize, used: usize) -> usize
    requires { ((x + 1) * ROW ≤ length rows.old) × (s < ROW) × (used * ROW ≤ length rows.old) }
    ensures { Downed rows.old x s used result rows.new }
{
    let k = rows[x * ROW + s] as usize;
    if k == 0 {
        put(rows, x, s, used + 1);
        used
    } else {
        k - 1
    }
}

// The depth of row x becomes at least d.
fn raise(rows: &mut [u64], x: usize, d: usize)
    requires { (x + 1) * ROW ≤ length rows.old }
    ensures { rows.new ≡ set rows.old (x * ROW + DEPTH) (max (col rows.old x DEPTH) d) }
{
    let depth = (rows[x * ROW + DEPTH] as usize).max(d);
    put(rows, x, DEPTH, depth);
}

// The next free row, where row y may just have been taken.
fn grown(used: usize, y: usize) -> usize
    requires { used < GROWS }
    ensures { (y ≡ used → result ≡ used + 1) × ((y ≡ used → ⊥) → result ≡ used) }
{
    if y == used { used + 1 } else { used }
}

// Puts the entry of the last n + 1 bits of v, with the mark h, into the tree at row x; `used` is the next free row, and
// the result the one after. (v, n and h stay numbers: each step goes on with one bit fewer, and `add` and `add_counted` ask another of
// them.)
fn insert(rows: &mut [u64], x: usize, used: usize, v: usize, n: usize, h: usize) -> usize
    requires { InsertIn rows.old x used v n }
    ensures { Inserted rows.old x used v n h result rows.new }
{
    raise(rows, x, n + 1);
    let s = (v >> n) % 2;
    if n == 0 {
        put(rows, x, 2 + s, h);
        used
    } else {
        let y = down(rows, x, s, used);
        insert(rows, y, grown(used, y), v, n - 1, h)
    }
}

// Row 0 is the root's: it is taken with the first node.
fn opened(used: usize) -> usize
    ensures { result ≡ max used 1 }
{
    if used == 0 { 1 } else { used }
}

// Lays one entry, the first l bits of v with the mark h, into the first `used` rows; the result is the number of rows
// then used. A length 0 entry makes no node.
#[tactic(auto, using(crate::proofs::Making::add_none, crate::proofs::Making::add_out), unfolding(table::specs::Prefix::start))]
fn add(rows: &mut [u64], used: usize, width: usize, v: usize, l: usize, h: usize) -> usize
    requires { AddIn rows.old used width v l h }
    ensures { Added rows.old used width v l h result rows.new }
{
    if l == 0 {
        return used;
    }
    insert(rows, 0, opened(used), v >> (width - l), l - 1, h)
}

// Adds 1 to the levels from `from` up to but not `to`.
fn add_levels(counts: &mut [u64], from: usize, to: usize)
    requires { (from ≤ to) × (to ≤ WIDTH) × CanCount counts.old }
    ensures { LevelsAdded counts.old from to counts.new }
{
    for j in from..to {
        counts[j] += 1;
    }
}

// Lays one entry, and counts its new nodes: they are its longest proper starts.
fn add_counted(
    rows: &mut [u64],
    counts: &mut [u64],
    used: usize,
    width: usize,
    v: usize,
    l: usize,
    h: usize,
) -> usize
    requires { CountIn rows.old counts.old used width v l h }
    ensures { AddCounted rows.old counts.old used width v l h result rows.new counts.new }
{
    let grown = add(rows, used, width, v, l, h);
    add_levels(counts, l - (grown - used), l);
    grown
}

// The link of the root where some rows are used.
fn root_link(used: usize) -> usize
    ensures some { 0 < used → result ≡ 1 }
    ensures none { used ≡ 0 → result ≡ 0 }
{
    if used == 0 { 0 } else { 1 }
}

// The mark of an entry: its hop and its length in one number.
fn mark_of(hop: u16, len: u8) -> usize
    ensures value { result ≡ entry_mark hop len }
    ensures small { result < MARKS }
{
    usize::from(hop) * LENGTHS + usize::from(len)
}

// Makes the rows of a table's 1-bit trie in rows that are all 0, counts its nodes level by level in counts that are all 0, and
// returns the root's link.
pub(crate) fn make_rows(rows: &mut [u64], counts: &mut [u64], width: u32, entries: Entries) -> usize
    requires { MakeIn width entries.value.now entries.length.now entries.hop.now rows.old counts.old }
    ensures { MakeOut width entries.entry.value.now entries.entry.length.now entries.entry.hop.now result rows.new counts.new }
{
    let Entries { value, length, hop } = entries;
    let w = width as usize;
    let mut used = 0;
    for i in 0..value.len() {
        let l = length[i];
        let mark = mark_of(hop[i], l);
        // A cast of the length: with `from` the call takes nine lines.
        used = add_counted(rows, counts, used, w, value[i] as usize, l as usize, mark);
    }
    root_link(used)
}
