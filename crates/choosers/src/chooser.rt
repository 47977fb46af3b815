// The stride choosers (01, "Stride choices"): the least cost of a kind, and the strides of the record; and the plan that they rest on,
// which leaves the trie with its strides in scratch for the builder. Width, levels and links stay three numbers, as C passes them: each
// has a test of its own. Scratch has ROW numbers for each node of the table's 1-bit trie.
ghost use Rattle.std.specs.Prelude.{◌≡◌};
ghost use Rattle.table.specs.Refusals.{outcome, outcome_of};
ghost use Rattle.strides.specs.Cheapest.{fixed, variable};
ghost use Rattle.walk.specs.Limits.{LEVELS};
ghost use Rattle.choosers.specs.Kinds.{kind_of};
ghost use Rattle.choosers.specs.Chooser.{choose_tests, ChosenIs, Chooses};
ghost use Rattle.choosers.specs.Answered.{answered_cost, answered_strides, plan_cost, plan_strides, plan_plan, plan_root};
ghost use Rattle.choosers.specs.Plans.{PlanIn, Planned, PlanIs, Plans};

use crate::costs::settle_all;
use crate::counting::node_count;
use crate::fixed::{fixed_choice, longest_length};
use crate::limits::BYTE;
use crate::rows::make_rows;
use crate::scratch::{BEFORE_COSTS, BEFORE_STRIDES, ROW, asked};
use table::{Entries, Refusal, WIDTH, check_table, is_outside, zero};
use walk::LEVELS;

// The two kinds of stride choice: one stride a level, or one a block.
#[derive(Clone, Copy, Debug, PartialEq, Eq)]
pub enum Kind {
    Fixed,
    Variable,
}

#[derive(Clone, Copy, Debug, Default, PartialEq, Eq)]
pub struct Chosen {
    pub cost: u64,
    pub strides: [u8; LEVELS as usize],
}

// Tests 1 to 6, in order: `words` is the length of the lent scratch. No list is touched.
#[tactic(auto, using(crate::proofs::ChooseTests::tests_width, crate::proofs::ChooseTests::tests_levels, crate::proofs::ChooseTests::tests_table, crate::proofs::ChooseTests::tests_scratch, crate::proofs::ChooseTests::tests_pass, crate::proofs::ChooseTests::table_prefixes, table::proofs::Table::accepted_table, table::proofs::Refusals::handed_on))]
fn tested(
    width: u32,
    levels: u32,
    links: u16,
    entries: Entries,
    words: usize,
) -> Result<(), Refusal>
    ensures { result ≡ outcome (choose_tests width levels links entries.entry.value.now entries.entry.length.now entries.entry.hop.now words) }
{
    if is_outside(width, WIDTH) {
        return Err(Refusal::Width);
    }
    if is_outside(levels, LEVELS) {
        return Err(Refusal::Levels);
    }
    check_table(width, links, entries)?;
    let nodes = node_count(width, entries);
    if words / ROW < nodes {
        return Err(Refusal::Scratch {
            needed: nodes as u64,
        });
    }
    Ok(())
}

// What a chooser answers, with the trie in the scratch rows from the link `root` on; `plan` names a fixed choice's strides to the
// builder, and is 0 where each row has its own. (Zeros and no Option: `PlanIs` promises a plan of LEVELS places, 0 where it is refused too.)
#[derive(Clone, Copy)]
pub struct Plan {
    pub cost: u64,
    pub strides: [u8; LEVELS as usize],
    pub plan: [u8; LEVELS as usize],
    pub root: usize,
}

// A variable choice: the rows hold every node's costs and strides. (`PlanIn` stands in three contracts: it is of what is lent, scratch to
// be written among it, and a struct of that would be taken apart at once.)
fn plan_variable(width: u32, levels: u32, entries: Entries, scratch: &mut [u64]) -> Plan
    requires { PlanIn width levels entries.value.now entries.length.now entries.hop.now scratch.old }
    ensures { Planned variable width levels entries.entry.value.now entries.entry.length.now entries.entry.hop.now
        result.cost result.strides result.plan result.root scratch.new }
{
    zero(scratch);
    let mut nodes = [0u64; WIDTH as usize];
    let root = make_rows(scratch, &mut nodes, width, entries);
    let k = levels as usize;
    settle_all(scratch, root, k);
    let mut strides = [0u8; LEVELS as usize];
    strides[0] = (asked(scratch, root, BEFORE_STRIDES + k) % BYTE) as u8;
    Plan {
        cost: asked(scratch, root, BEFORE_COSTS + k) as u64,
        strides,
        plan: [0u8; LEVELS as usize],
        root,
    }
}

// A fixed choice: the rows hold links, marks and depths, and no costs.
fn plan_fixed(width: u32, levels: u32, entries: Entries, scratch: &mut [u64]) -> Plan
    requires { PlanIn width levels entries.value.now entries.length.now entries.hop.now scratch.old }
    ensures { Planned fixed width levels entries.entry.value.now entries.entry.length.now entries.entry.hop.now
        result.cost result.strides result.plan result.root scratch.new }
{
    zero(scratch);
    let mut nodes = [0u64; WIDTH as usize];
    let root = make_rows(scratch, &mut nodes, width, entries);
    let depth = longest_length(entries.length);
    let f = fixed_choice(&nodes, depth, levels as usize);
    let strides = f.strides;
    Plan {
        cost: f.cost,
        strides,
        plan: strides,
        root,
    }
}

// A choice of either kind. (A `match` of two arms with two contracts; a third kind is a third arm.)
fn planned(kind: Kind, width: u32, levels: u32, entries: Entries, scratch: &mut [u64]) -> Plan
    requires { PlanIn width levels entries.value.now entries.length.now entries.hop.now scratch.old }
    ensures { Planned (kind_of kind) width levels entries.entry.value.now entries.entry.length.now entries.entry.hop.now
        result.cost result.strides result.plan result.root scratch.new }
{
    match kind {
        Kind::Fixed => plan_fixed(width, levels, entries, scratch),
        Kind::Variable => plan_variable(width, levels, entries, scratch),
    }
}

// Plans a choice for a builder: the least cost and the strides, as a chooser answers them, and in scratch the table's trie, from which each
// block's stride is read; or the first refusal among 1 to 6, and then no list is changed.
pub fn plan_choice(
    kind: Kind,
    width: u32,
    levels: u32,
    links: u16,
    entries: Entries,
    scratch: &mut [u64],
) -> Result<Plan, Refusal>
    ensures exact { PlanIs (kind_of kind) width levels links
        entries.entry.value.now entries.entry.length.now entries.entry.hop.now scratch.old
        (outcome_of result) (plan_cost result) (plan_strides result) (plan_plan result) (plan_root result) scratch.new }
    ensures meaning { Plans (kind_of kind) width levels links
        entries.entry.value.now entries.entry.length.now entries.entry.hop.now scratch.old
        (outcome_of result) (plan_cost result) (plan_strides result) (plan_plan result) (plan_root result) scratch.new }
{
    tested(width, levels, links, entries, scratch.len())?;
    Ok(planned(kind, width, levels, entries, scratch))
}

// The least cost of a choice of the kind with at most `levels` levels, and its strides from the front, of a variable choice the root's
// alone; or the first refusal among 1 to 6 (6 with the rows of scratch that are needed). Accepted, all of scratch is zero; refused, no
// list is changed.
#[tactic(auto, using(crate::proofs::Choosing::refused_is, crate::proofs::Choosing::chosen_is, crate::proofs::Choosing::chosen_means, table::proofs::Refusals::handed_on), unfolding(table::specs::Refusals::outcome_of))]
pub fn choose(
    kind: Kind,
    width: u32,
    levels: u32,
    links: u16,
    entries: Entries,
    scratch: &mut [u64],
) -> Result<Chosen, Refusal>
    ensures exact { ChosenIs (kind_of kind) width levels links
        entries.entry.value.now entries.entry.length.now entries.entry.hop.now scratch.old
        (outcome_of result) (answered_cost result) (answered_strides result) scratch.new }
    ensures meaning { Chooses (kind_of kind) width levels links
        entries.entry.value.now entries.entry.length.now entries.entry.hop.now scratch.old
        (outcome_of result) (answered_cost result) (answered_strides result) scratch.new }
{
    let p = plan_choice(kind, width, levels, links, entries, scratch)?;
    let strides = p.strides;
    zero(scratch);
    Ok(Chosen {
        cost: p.cost,
        strides,
    })
}
