// What tests 6 and 7 count over all tries (02, [6]): 1-bit nodes and least costs. A trie's table is lent to the choosers as it is, with
// the most links: its actions have passed test 4, and the hops of the destinations' are numbers of tries, which no link answers to.
ghost use Rattle.std.specs.Prelude.{◌≡◌, ◌*◌, ◌≤◌, length};
ghost use Rattle.strides.specs.Trie.{size};
ghost use Rattle.strides.specs.Recurrence.{plain, least_by};
ghost use Rattle.layout.specs.Laid.{table_trie};
ghost use Rattle.choosers.specs.Kinds.{kind_of};
ghost use Rattle.choosers.specs.Scratch.{ROW};
ghost use Rattle.rules.specs.Tables.{tables};
ghost use Rattle.rules.specs.Splitting.{split_nodes, split_costs, CanPlan, CanSplit, Roomy};

use crate::split::Split;
use choosers::{Kind, ROW, choose, plan_choice};
use table::{Entries, LINKS, Refusal};

// The 1-bit nodes of a table: a chooser that is lent no row of scratch is refused by 6 and says how many it needs, or needs none.
#[tactic(auto, using(crate::proofs::Planning::no_nodes), unfolding(table::specs::Refusals::outcome_of))]
pub(crate) fn nodes_of(split: &Split, entries: Entries) -> usize
    requires { CanPlan split.now.width split.now.levels entries.value.now entries.length.now entries.hop.now }
    ensures { result ≡ size (table_trie split.now.width entries.entry.value.now entries.entry.length.now entries.entry.hop.now) }
{
    let mut word = [0u64; 1];
    let chosen = choose(
        Kind::Fixed,
        split.width,
        split.levels,
        LINKS,
        entries,
        &mut word,
    );
    let Err(refusal) = chosen else {
        return 0;
    };
    match refusal {
        Refusal::Scratch { needed } => needed as usize,
        _ => 0,
    }
}

// The least cost of a table that has passed its tests. Only the rows that its trie needs are lent on, since a chooser zeroes all that
// it is lent.
fn cost_of(split: &Split, entries: Entries, scratch: &mut [u64]) -> u64
    requires can_plan { CanPlan split.now.width split.now.levels entries.value.now entries.length.now entries.hop.now }
    requires roomy { size (table_trie split.now.width entries.value.now entries.length.now entries.hop.now) * ROW ≤ length scratch.old }
    ensures { result ≡ least_by plain (kind_of split.now.kind) split.now.levels
        (table_trie split.now.width entries.entry.value.now entries.entry.length.now entries.entry.hop.now) }
{
    let words = nodes_of(split, entries) * ROW;
    let plan = plan_choice(
        split.kind,
        split.width,
        split.levels,
        LINKS,
        entries,
        &mut scratch[0..words],
    )
    .unwrap();
    plan.cost
}

// Test 6's count: the nodes of all tries, the destinations' first.
pub(crate) fn all_nodes(split: &Split) -> usize
    requires { CanSplit split.now.width split.now.levels (tables split.now) }
    ensures { result ≡ split_nodes split.now.width (tables split.now) }
{
    let mut nodes = nodes_of(split, split.destinations);
    for g in 0..split.destinations.value.len() {
        nodes += nodes_of(split, split.part(g));
    }
    nodes
}

// Test 7's sum: the least costs of all tries.
pub(crate) fn all_costs(split: &Split, scratch: &mut [u64]) -> u64
    requires can_split { CanSplit split.now.width split.now.levels (tables split.now) }
    requires roomy { Roomy split.now.width (tables split.now) (length scratch.old) }
    ensures { result ≡ split_costs (kind_of split.now.kind) split.now.width split.now.levels (tables split.now) }
{
    let mut cost = cost_of(split, split.destinations, scratch);
    for g in 0..split.destinations.value.len() {
        cost += cost_of(split, split.part(g), scratch);
    }
    cost
}
