// The fixed choice: one stride for all blocks of a level (source document 000). From the nodes of each level, counted as the rows are
// made, and from the last level up, the cheapest strides for the levels from there on.
ghost use Rattle.std.specs.Prelude.{◌≡◌, ℕ, ◌+◌, ◌-◌, ◌*◌, ◌≤◌, length, get_or};
ghost use Rattle.table.specs.Table.{at};
ghost use Rattle.table.specs.Lists.{padded};
ghost use Rattle.strides.specs.Entries.{longest_length};
ghost use Rattle.strides.specs.Recurrence.{list_by};
ghost use Rattle.walk.specs.Limits.{WIDTH, LEVELS};
ghost use Rattle.choosers.specs.Limits.{ENTRIES};
ghost use Rattle.choosers.specs.Costs.{held};
ghost use Rattle.choosers.specs.FixedChoice.{level_cells, Filled, RowFilled, StridesFilled, SomeNodes, CanChoose, FixedOut};

use crate::chooser::Chosen;
use crate::costs::{Column, choice};
use crate::limits::{BYTE, SLOTS};
use table::WIDTH;

// Places of the table of fixed strides: every level and one past the last, and every number of levels left. Costs and strides are flat
// lists, since `Column` reads a list from a place on by a pitch.
const LEVEL_CELLS: usize = (WIDTH as usize + 1) * SLOTS;

// The longest length: how many levels the trie has.
#[tactic(auto, using(crate::proofs::FixedChoice::longest_next), unfolding(strides::specs::Entries::longest_length))]
pub(crate) fn longest_length(lens: &[u8]) -> usize
    ensures { result ≡ longest_length (at lens.now) (length lens.now) }
{
    let mut longest = 0;
    for l in lens {
        longest = longest.max(usize::from(*l));
    }
    longest
}

// The choices for the d levels from level i on, where level i has n nodes and the rows after i are filled. (The two lists stay apart:
// `Column` reads one of them, and both are written.)
fn fill_row(n: usize, i: usize, d: usize, levels: usize, costs: &mut [u64], strides: &mut [u64])
    requires costs_len { (length costs.old ≡ level_cells) × (length strides.old ≡ level_cells) }
    requires n_bound { (n ≤ ENTRIES) × (1 ≤ d) × (i + d ≤ WIDTH) × (levels ≤ LEVELS) }
    ensures { RowFilled levels n d i costs.old strides.old costs.new strides.new }
{
    for r in 0..levels {
        // The costs of the levels after i, with one level less; not read where r is 0.
        let below = Column {
            list: costs,
            first: (i + 1) * SLOTS + r - 1,
            pitch: SLOTS,
        };
        let b = choice(below, n, r, d);
        let at = i * SLOTS + r;
        costs[at] = b.cost;
        strides[at] = b.place as u64 + 1;
    }
}

// Fills the table of fixed strides from the last level up, in tables that are all 0.
fn fill_table(nodes: &[u64], levels: usize, depth: usize, costs: &mut [u64], strides: &mut [u64])
    requires nodes_len { (length nodes.now ≡ WIDTH) × (levels ≤ LEVELS) × (depth ≤ WIDTH) × ((j : ℕ) → get_or nodes.now j 0 ≤ ENTRIES) }
    requires filled { Filled (at nodes.now) levels depth depth costs.old strides.old }
    ensures { Filled (at nodes.now) levels depth 0 costs.new strides.new }
{
    for i in (0..depth).rev() {
        fill_row(nodes[i] as usize, i, depth - i, levels, costs, strides);
    }
}

// The strides that the table names, from the first level on: unused places 0.
fn read_list(strides: &[u64], levels: usize, depth: usize) -> [u8; SLOTS]
    requires { (1 ≤ levels) × (levels ≤ LEVELS) × (depth ≤ WIDTH) × (length strides.now ≡ level_cells) × SomeNodes levels depth strides.now }
    ensures { (nodes : ℕ → ℕ) → StridesFilled nodes levels depth strides.now → result ≡ padded LEVELS (list_by held nodes (levels - 1) 0 depth) }
{
    let mut list = [0u8; SLOTS];
    let mut i = 0;
    for p in 0..levels {
        let s = strides[i * SLOTS + (levels - 1 - p)] as usize;
        list[p] = (s % BYTE) as u8;
        i += s;
    }
    list
}

// The cheapest fixed choice for a trie of `depth` levels, whose nodes are counted level by level.
pub(crate) fn fixed_choice(nodes: &[u64], depth: usize, levels: usize) -> Chosen
    requires { CanChoose nodes.now depth levels }
    ensures { FixedOut nodes.now depth levels result.cost result.strides }
{
    let mut costs = [0u64; LEVEL_CELLS];
    let mut strides = [0u64; LEVEL_CELLS];
    fill_table(nodes, levels, depth, &mut costs, &mut strides);
    Chosen {
        cost: costs[levels - 1],
        strides: read_list(&strides, levels, depth),
    }
}
