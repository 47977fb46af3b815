// The least cost and its stride of every node, for each number of levels left (source document 000's recurrence), from the bottom up:
// each node takes over from the two below it what the nodes j levels below cost together, for all j at once. It is done in passes of
// COLUMNS numbers of levels, so that these sums take little room.
ghost use Rattle.std.specs.Prelude.{◌≡◌, ℕ, ◌+◌, ◌-◌, ◌*◌, ◌<◌, ◌≤◌, length, get_or, set};
ghost use Rattle.strides.specs.Recurrence.{scan};
ghost use Rattle.walk.specs.Limits.{WIDTH, LEVELS};
ghost use Rattle.choosers.specs.Limits.{ENTRIES};
ghost use Rattle.choosers.specs.Scratch.{ROW, DEPTH, ask};
ghost use Rattle.choosers.specs.Costs.{held, price, best_cost, best_stride, Pass as IsPass, COLUMNS};
ghost use Rattle.choosers.specs.Columns.{numbers};
ghost use Rattle.choosers.specs.Costs.{Stored, RowAdded, Lifted, HandedUp, SettleIn, TreeAsk, TreeDone, SumsIn, SumsDone};

use crate::caps::{capped_power, capped_sum};
use crate::limits::COST_CAP;
use crate::scratch::{BEFORE_COSTS, COST, DEPTH, STRIDE, asked, put};
use table::WIDTH;

// Numbers of a list: the first stands at place `first`, and each next one `pitch` places later.
#[derive(Clone, Copy)]
pub(crate) struct Column<'a> {
    pub(crate) list: &'a [u64],
    pub(crate) first: usize,
    pub(crate) pitch: usize,
}

// What n blocks of stride j + 1 cost, where what the blocks below them cost is number j of `below`.
#[tactic(auto, unfolding(crate::specs::Costs::price))]
fn price_at(below: Column, n: usize, j: usize) -> u64
    requires { (j * below.pitch + below.first < length below.list.now) × (n ≤ ENTRIES) × (j < WIDTH) }
    ensures { result ≡ price (numbers below.entry) n j }
{
    let blocks = n as u64 * capped_power(j as u64 + 1, COST_CAP);
    capped_sum(blocks, below.list[j * below.pitch + below.first], COST_CAP)
}

// A stride, less one, and its cost.
#[derive(Clone, Copy)]
pub(crate) struct Best {
    pub(crate) place: usize,
    pub(crate) cost: u64,
}

// The cheaper of b and the stride j + 1 at the cost c; b where they are equal.
fn cheaper(b: Best, j: usize, c: u64) -> Best
    ensures other { b.cost ≤ c → (result.cost ≡ b.cost) × (result.place ≡ b.place) }
    ensures less { c < b.cost → (result.cost ≡ c) × (result.place ≡ j) }
{
    if b.cost <= c {
        b
    } else {
        Best { place: j, cost: c }
    }
}

// The cheapest stride from 1 to `depth` for n nodes, the smallest of equals.
fn cheapest(below: Column, n: usize, depth: usize) -> Best
    requires { ((j : ℕ) → j < depth → j * below.pitch + below.first < length below.list.now) × (n ≤ ENTRIES) × (1 ≤ depth) × (depth ≤ WIDTH) }
    ensures cost { result.cost ≡ (scan (price (numbers below.entry) n) (depth - 1)).1 }
    ensures place { result.place ≡ (scan (price (numbers below.entry) n) (depth - 1)).0 }
{
    let mut b = Best {
        place: 0,
        cost: price_at(below, n, 0),
    };
    for j in 0..depth - 1 {
        b = cheaper(b, j + 1, price_at(below, n, j + 1));
    }
    b
}

// The choice for n nodes of the depth, with r + 1 levels left: with one level the stride reaches the bottom.
#[tactic(auto, using(crate::proofs::Pricing::choice_more, strides::proofs::Scan::scanned), unfolding(crate::specs::Costs::best_cost, crate::specs::Costs::best_stride))]
pub(crate) fn choice(below: Column, n: usize, r: usize, depth: usize) -> Best
    requires { ((j : ℕ) → j < depth → j * below.pitch + below.first < length below.list.now) × (n ≤ ENTRIES) × (1 ≤ depth) × (depth ≤ WIDTH) }
    ensures cost { result.cost ≡ best_cost (numbers below.entry) n depth r }
    ensures place { result.place + 1 ≡ best_stride (numbers below.entry) n depth r }
    ensures small { result.place < WIDTH }
{
    if r == 0 {
        Best {
            place: depth - 1,
            cost: capped_sum(n as u64 * capped_power(depth as u64, COST_CAP), 0, COST_CAP),
        }
    } else {
        cheapest(below, n, depth)
    }
}

// Numbers of levels in a pass.
const COLUMNS: usize = 8;

// Lines of the sums, of COLUMNS places each: a node at level d has one for each of the WIDTH - d levels from it on, those of the nodes
// above it stay, and one more is only read, as 0.
const SUM_LINES: usize = WIDTH as usize * (WIDTH as usize + 1) / 2 + 1;

const SUM_CELLS: usize = SUM_LINES * COLUMNS;

// A pass: from + 1 to `to` levels left.
#[derive(Clone, Copy)]
struct Pass {
    from: usize,
    to: usize,
    ghost few: { IsPass from to },
}

// (From here on rows, link, pass, line and sums stay parameters: rows and sums are lent to be written, and a struct of them would be made
// and taken apart at each call. What is asked of the tree is of the rows as they stand, so no field can hold it.)

// Stores the choices of row x with from + 1 to `to` levels left. What the blocks below cost with r levels left stands in the column
// of the sums that begins r - from places after `first`.
fn store(rows: &mut [u64], x: usize, depth: usize, pass: Pass, first: usize, sums: &[u64])
    requires { ((x + 1) * ROW ≤ length rows.old) × (1 ≤ depth) × (depth ≤ WIDTH) × (first + depth * COLUMNS ≤ length sums.now) }
    ensures { Stored pass.from pass.to rows.old x depth first sums.now rows.new }
{
    for r in pass.from..pass.to {
        let below = Column {
            list: sums,
            first: first + (r - pass.from),
            pitch: COLUMNS,
        };
        let b = choice(below, 1, r, depth);
        put(rows, x, COST + r, b.cost as usize);
        put(rows, x, STRIDE + r, b.place + 1);
    }
}

// Adds v at place i.
fn bump(sums: &mut [u64], i: usize, v: usize)
    requires { i < length sums.old }
    ensures { sums.new ≡ set sums.old i (held (get_or sums.old i 0 + v)) }
{
    sums[i] = capped_sum(sums[i], v as u64, COST_CAP);
}

// Adds the costs of the row at link k to a line of the sums: with r levels left at place r - from. With no level left there is none.
fn add_row(rows: &[u64], k: usize, pass: Pass, line: usize, sums: &mut [u64])
    requires { (0 < k) × (k * ROW ≤ length rows.now) × ((line + 1) * COLUMNS ≤ length sums.old) }
    ensures { RowAdded pass.from pass.to rows.now k line sums.old sums.new }
{
    for r in pass.from.max(1)..pass.to {
        bump(
            sums,
            line * COLUMNS + (r - pass.from),
            asked(rows, k, BEFORE_COSTS + r),
        );
    }
}

// Adds the n sums from place `down` on to those from place `up` on, which end before them, and clears them.
fn lift(sums: &mut [u64], up: usize, down: usize, n: usize)
    requires { (up + n ≤ down) × (down + n ≤ length sums.old) }
    ensures { Lifted sums.old up down n sums.new }
{
    for i in 0..n {
        sums[up + i] = capped_sum(sums[up + i], sums[down + i], COST_CAP);
        sums[down + i] = 0;
    }
}

// Adds the m lines of sums below a node, which stand from line `below` on, to its own from `line` on, one line later, and clears
// them; then the costs of the node itself, at link k.
#[tactic(auto, using(crate::proofs::Gathering::handed_up))]
fn hand_up(
    rows: &[u64],
    k: usize,
    pass: Pass,
    line: usize,
    below: usize,
    m: usize,
    sums: &mut [u64],
)
    requires { (0 < k) × (k * ROW ≤ length rows.now) × (line + m < below) × ((below + m) * COLUMNS ≤ length sums.old) }
    ensures { HandedUp pass.from pass.to rows.now k line below m sums.old sums.new }
{
    lift(sums, (line + 1) * COLUMNS, below * COLUMNS, m * COLUMNS);
    add_row(rows, k, pass, line, sums);
}

// Settles the row at link k from the sums that stand from line `below` on, and hands them up to `line`.
fn settle_row(rows: &mut [u64], k: usize, pass: Pass, line: usize, below: usize, sums: &mut [u64])
    requires { SettleIn pass.from pass.to rows.old k line below sums.old }
    ensures stored { Stored pass.from pass.to rows.old (k - 1) (ask rows.old k DEPTH) (below * COLUMNS) sums.old rows.new }
    ensures handed { HandedUp pass.from pass.to rows.new k line below (ask rows.old k DEPTH - 1) sums.old sums.new }
{
    let depth = asked(rows, k, DEPTH);
    store(rows, k - 1, depth, pass, below * COLUMNS, sums);
    hand_up(rows, k, pass, line, below, depth - 1, sums);
}

// Settles every row of the tree at link k, which stands at level d, from the bottom up, and adds what its nodes cost to the sums from
// `line` on, a line for each level. What stands below it is summed in the lines after those, which are 0 before and after.
fn settle_tree(rows: &mut [u64], k: usize, d: usize, pass: Pass, line: usize, sums: &mut [u64])
    requires tree_ask { TreeAsk pass.from rows.old k d }
    requires sums_in { SumsIn line (WIDTH - d) sums.old }
    ensures rows { TreeDone pass.from pass.to rows.old k d rows.new }
    ensures sums { SumsDone pass.from pass.to rows.old k d line sums.old sums.new }
{
    if k != 0 {
        let below = line + (WIDTH as usize - d);
        settle_tree(rows, asked(rows, k, 0), d + 1, pass, below, sums);
        settle_tree(rows, asked(rows, k, 1), d + 1, pass, below, sums);
        settle_row(rows, k, pass, line, below, sums);
    }
}

// One pass over the tree at link k.
#[tactic(auto, using(crate::proofs::Gathering::sums_start))]
fn settle_pass(rows: &mut [u64], k: usize, pass: Pass)
    requires { TreeAsk pass.from rows.old k 0 }
    ensures { TreeDone pass.from pass.to rows.old k 0 rows.new }
{
    let mut sums = [0u64; SUM_CELLS];
    settle_tree(rows, k, 0, pass, 0, &mut sums);
}

// Settles every row of the tree at link k, for 1 to `levels` levels left.
pub(crate) fn settle_all(rows: &mut [u64], k: usize, levels: usize)
    requires { TreeAsk 0 rows.old k 0 × (levels ≤ LEVELS) }
    ensures { TreeDone 0 levels rows.old k 0 rows.new }
{
    let mut from = 0;
    // Passes of COLUMNS levels and a shorter last one: `from` is where each ends, so that no step by a number is plainer.
    while from < levels {
        let to = (from + COLUMNS).min(levels);
        settle_pass(rows, k, Pass { from, to });
        from = to;
    }
}
