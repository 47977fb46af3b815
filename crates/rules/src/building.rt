// The build of rules (02, [6]): a destination trie whose entries lead to source tries, all in lent arrays.
ghost use Rattle.std.specs.Prelude.{◌≡◌, length, [], ◌∷◌, Ok, false};
ghost use Rattle.table.specs.Limits.{outside};
ghost use Rattle.walk.specs.Limits.{LEVELS};
ghost use Rattle.fields.specs.Rules.{check_rules_of};
ghost use Rattle.table.specs.Refusals.{outcome, outcome_of};
ghost use Rattle.walk.specs.Lent.{held, SameLists};
ghost use Rattle.tries.specs.Build.{room_test};
ghost use Rattle.choosers.specs.Kinds.{kind_of};
ghost use Rattle.fields.specs.Lent.{lent};
ghost use Rattle.rules.specs.Build.{trie_list_test, rule_record_of, RulesAre, RuleBuilds};
ghost use Rattle.rules.specs.Tables.{tables};
ghost use Rattle.rules.specs.Splitting.{CanSplit, Roomy};
ghost use Rattle.rules.specs.Building.{CanLayAll, SplitWritten, TriesBuilt, SplitBuilt};

use crate::counting::{all_costs, all_nodes};
use crate::grouping::gather;
use crate::laying::{lay_at, lay_sources};
use crate::split::Split;
use choosers::{Kind, ROW};
use fields::{RULES, RuleLists, check_rules};
use table::{Entries, Refusal, WIDTH, is_outside, zero};
use tries::is_crowded;
use verdicts::{RuleRecord, TRIE_ROW};
use walk::{LEVELS, RowsMut};

// Test 7 for elements, where all tries cost so many, then for the list of tries, which has a row for each destination.
#[tactic(auto, unfolding(table::specs::Refusals::outcome))]
fn room_outcome(cost: u64, destinations: usize, room: usize, numbers: usize) -> Result<(), Refusal>
    ensures { result ≡ outcome (room_test cost room ∷ trie_list_test numbers destinations ∷ []) }
{
    if is_crowded(cost, room) {
        return Err(Refusal::Room { needed: cost });
    }
    if numbers / TRIE_ROW < destinations {
        return Err(Refusal::Room {
            needed: destinations as u64,
        });
    }
    Ok(())
}

// Past test 7: lays the destination trie, and the source tries behind it.
fn lay_all(split: &Split, scratch: &mut [u64], rows: &mut RowsMut, list: &mut [u32]) -> RuleRecord
    requires { CanLayAll (kind_of split.now.kind) split.now.width split.now.levels (tables split.now) (length scratch.old) (held rows.old) list.old }
    ensures same { SameLists rows.old rows.new }
    ensures built { SplitWritten (kind_of split.now.kind) split.now.width split.now.levels (tables split.now)
        (held rows.old) list.old (Ok tt) result (held rows.new) list.new }
{
    let dest = lay_at(split, split.destinations, scratch, rows, 0);
    let elements = lay_sources(split, scratch, rows, list, dest.elements as usize);
    RuleRecord {
        dest,
        elements: elements as u32,
    }
}

// Past test 6: refuses for room, of elements or of the list (7), or lays all tries.
fn build_tries(
    split: &Split,
    scratch: &mut [u64],
    rows: &mut RowsMut,
    list: &mut [u32],
) -> Result<RuleRecord, Refusal>
    requires can_split { CanSplit split.now.width split.now.levels (tables split.now) }
    requires roomy { Roomy split.now.width (tables split.now) (length scratch.old) }
    ensures same { SameLists rows.old rows.new }
    ensures built { TriesBuilt (kind_of split.now.kind) split.now.width split.now.levels (tables split.now)
        (held rows.old) list.old (outcome_of result) (rule_record_of result) (held rows.new) list.new }
{
    let cost = all_costs(split, scratch);
    room_outcome(cost, split.destinations.value.len(), rows.len(), list.len())?;
    Ok(lay_all(split, scratch, rows, list))
}

// Past test 5, with the destinations gathered: refuses for scratch (6), or goes on and leaves scratch all 0.
fn build_split(
    split: &Split,
    scratch: &mut [u64],
    rows: &mut RowsMut,
    list: &mut [u32],
) -> Result<RuleRecord, Refusal>
    requires { CanSplit split.now.width split.now.levels (tables split.now) }
    ensures same { SameLists rows.old rows.new }
    ensures built { SplitBuilt (kind_of split.now.kind) split.now.width split.now.levels (tables split.now) scratch.old
        (held rows.old) list.old (outcome_of result) (rule_record_of result) scratch.new (held rows.new) list.new }
{
    let nodes = all_nodes(split);
    if scratch.len() / ROW < nodes {
        return Err(Refusal::Scratch {
            needed: nodes as u64,
        });
    }
    // No `?`: refused for room, scratch is cleared as well.
    let built = build_tries(split, scratch, rows, list);
    zero(scratch);
    built
}

// Past test 5: gathers the destinations, and goes on. (A function of its own: its arrays are cleared where it begins, and a refusal by 1 to 5
// comes before. Links are what the rules were tested with.)
fn build_gathered(
    kind: Kind,
    width: u32,
    levels: u32,
    links: u16,
    rules: RuleLists,
    scratch: &mut [u64],
    rows: &mut RowsMut,
    list: &mut [u32],
) -> Result<RuleRecord, Refusal>
    requires levels { outside levels LEVELS ≡ false }
    requires accepted { check_rules_of width links (lent rules) ≡ Ok tt }
    ensures same { SameLists rows.old rows.new }
    ensures exact { RulesAre (kind_of kind) width levels links (lent rules.entry) scratch.old
        (held rows.old) list.old (outcome_of result) (rule_record_of result) scratch.new (held rows.new) list.new }
{
    // Arrays of the most rules, of which the first m are used: there is no heap here.
    let mut first = [0u16; RULES + 1];
    let mut vals = [0u32; RULES];
    let mut lens = [0u8; RULES];
    let mut nums = [0u16; RULES];
    let m = gather(
        rules.dvals,
        rules.dlens,
        &mut first,
        &mut vals,
        &mut lens,
        &mut nums,
    );
    let split = Split {
        kind,
        width,
        levels,
        first: &first,
        destinations: Entries {
            value: &vals[0..m],
            length: &lens[0..m],
            hop: &nums[0..m],
        },
        sources: Entries {
            value: rules.svals,
            length: rules.slens,
            hop: rules.actions,
        },
    };
    build_split(&split, scratch, rows, list)
}

// Turns rules into a destination trie whose entries lead to source tries, all in lent arrays, each with the least number of rows of its
// kind; or refuses them by the first of the tests 1 to 7, where 6 and 7 count over all tries and 7 tests the elements, then the list of
// tries. Refused, neither elements nor list change; 1 to 6 keep scratch too, else all of it is 0. (Width, levels and links stay numbers, as
// choosers has them.)
pub fn build_rules(
    kind: Kind,
    width: u32,
    levels: u32,
    links: u16,
    rules: RuleLists,
    scratch: &mut [u64],
    rows: &mut RowsMut,
    list: &mut [u32],
) -> Result<RuleRecord, Refusal>
    ensures same { SameLists rows.old rows.new }
    ensures exact { RulesAre (kind_of kind) width levels links (lent rules.entry) scratch.old
        (held rows.old) list.old (outcome_of result) (rule_record_of result) scratch.new (held rows.new) list.new }
    ensures meaning { RuleBuilds (kind_of kind) width levels links (lent rules.entry) scratch.old
        (held rows.old) list.old (outcome_of result) (rule_record_of result) scratch.new (held rows.new) list.new }
{
    if is_outside(width, WIDTH) {
        return Err(Refusal::Width);
    }
    if is_outside(levels, LEVELS) {
        return Err(Refusal::Levels);
    }
    check_rules(width, links, rules)?;
    build_gathered(kind, width, levels, links, rules, scratch, rows, list)
}
