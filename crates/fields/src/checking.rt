// The check of rules: refusals 1, 3, 4 and 5 (01, "Refusals, in order of test"), with rules for entries (02, [6]). (The
// width stays a number, with its bound in each contract: C passes it so.)
ghost use Rattle.std.specs.Prelude.{◌≡◌, ◌≤◌, ◌<◌};
ghost use Rattle.table.specs.Limits.{width_limit};
ghost use Rattle.table.specs.Refusals.{outcome, Gives};
ghost use Rattle.fields.specs.Lent.{lent};
ghost use Rattle.fields.specs.Rules.{rule_count, rules_shape_bad, SameLengths, rule_below, rule_tests_at, each_rule_tests, rule_tests, check_rules_of};

use crate::limits::RULES;
use table::{Refusal, WIDTH, hop_refused, is_below, is_outside, prefix_bad};

// The five lists of rules, lent: of each rule its destination and its source, each a value and a length in bits, and its action. They may
// be of any lengths; that these are the same is asked where the test of the shape has passed. (Lists and not one of structs: C lends them.)
#[derive(Clone, Copy)]
pub struct RuleLists<'a> {
    pub dvals: &'a [u32],
    pub dlens: &'a [u8],
    pub svals: &'a [u32],
    pub slens: &'a [u8],
    pub actions: &'a [u16],
}

// Refusal 3: lists of unequal length, or too many rules.
#[tactic(auto, unfolding(crate::specs::Rules::rules_shape_bad))]
fn rules_shape_bad(rules: RuleLists) -> bool
    ensures { result ≡ rules_shape_bad (lent rules.entry) }
{
    let n = rules.dvals.len();
    rules.dlens.len() != n
        || rules.svals.len() != n
        || rules.slens.len() != n
        || rules.actions.len() != n
        || RULES < n
}

// The order of rules: by destination value, destination length, source value, source length. Actions have no part in it.
// (Tried as the order of two pairs of pairs: the proof did not close.)
#[tactic(auto, unfolding(crate::specs::Rules::rule_below))]
fn is_rule_below(rules: RuleLists, i: usize, j: usize) -> bool
    requires same_lengths { SameLengths (lent rules) }
    requires in_bounds { (i < rule_count (lent rules)) × (j < rule_count (lent rules)) }
    ensures { result ≡ rule_below (lent rules.entry) i j }
{
    let (dv, dl) = (rules.dvals[i], rules.dlens[i]);
    let (ev, el) = (rules.dvals[j], rules.dlens[j]);
    is_below(dv, dl, ev, el)
        || dv == ev
            && dl == el
            && is_below(
                rules.svals[i],
                rules.slens[i],
                rules.svals[j],
                rules.slens[j],
            )
}

// Tests 4 and 5 at rule i, 4 first.
#[tactic(auto, unfolding(crate::specs::Rules::rule_bad, crate::specs::Rules::rule_order_bad, table::specs::Refusals::outcome, table::specs::Table::tests_at))]
fn rule_outcome(width: u32, links: u16, rules: RuleLists, i: usize) -> Result<(), Refusal>
    requires width { width ≤ width_limit }
    requires same_lengths { SameLengths (lent rules) }
    requires in_bounds { i < rule_count (lent rules) }
    ensures { result ≡ outcome (rule_tests_at width links (lent rules.entry) i) }
{
    if prefix_bad(width, rules.dvals[i], rules.dlens[i])
        || prefix_bad(width, rules.svals[i], rules.slens[i])
        || hop_refused(links, rules.actions[i])
    {
        return Err(Refusal::BadEntry { index: i as u64 });
    }
    if i > 0 && !is_rule_below(rules, i - 1, i) {
        return Err(Refusal::Unordered { index: i as u64 });
    }
    Ok(())
}

// Tests 4 and 5 rule by rule: the lowest index is reported.
fn rules_outcome(width: u32, links: u16, rules: RuleLists) -> Result<(), Refusal>
    requires width { width ≤ width_limit }
    requires same_lengths { SameLengths (lent rules) }
    ensures { result ≡ outcome (each_rule_tests width links (lent rules.entry) 0 (rule_count (lent rules.entry))) }
{
    for i in 0..rules.dvals.len() {
        rule_outcome(width, links, rules, i)?;
    }
    Ok(())
}

// Says whether five lists are rules of the width for a gateway with so many links: accepted, or the first refusal among 1, 3, 4
// (the rule's index) and 5 (the same). It changes nothing.
#[tactic(auto, using(table::proofs::Table::width_is, crate::proofs::Rules::lengths_are, crate::proofs::Rules::check_rules_width, crate::proofs::Rules::check_rules_shape, crate::proofs::Rules::check_rules_each, crate::proofs::Rules::check_rules_gives))]
pub fn check_rules(width: u32, links: u16, rules: RuleLists) -> Result<(), Refusal>
    ensures exact { result ≡ check_rules_of width links (lent rules.entry) }
    ensures meaning { Gives (rule_tests width links (lent rules.entry)) result }
{
    if is_outside(width, WIDTH) {
        return Err(Refusal::Width);
    }
    if rules_shape_bad(rules) {
        return Err(Refusal::Shape);
    }
    rules_outcome(width, links, rules)
}
