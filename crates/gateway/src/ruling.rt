// Rules of two fields for C (02, [6]): the builds and the classification.
ghost use Rattle.std.specs.Prelude.{◌≡◌};
ghost use Rattle.table.specs.Answers.{Told};
ghost use Rattle.choosers.specs.Kinds.{kind_of};
ghost use Rattle.walk.specs.Limits.{WIDTH};
ghost use Rattle.walk.specs.Lent.{held, lent, SameLists};
ghost use Rattle.fields.specs.Lent.{lent as rules_in};
ghost use Rattle.verdicts.specs.Classify.{classify_of};
ghost use Rattle.verdicts.specs.Meaning.{Classified};
ghost use Rattle.verdicts.specs.Verdicts.{said};
ghost use Rattle.gateway.specs.Numbers.{rule_build_numbers, verdict_numbers};
ghost use Rattle.gateway.specs.Allowed.{ExactRules, AllowedRules};

use fields::RuleLists;
use table::{DISCARD, Refusal};
use tries::Kind;
use verdicts::{RuleRecord, Verdict};
use walk::{LookupRefusal, Rows, RowsMut};

#[derive(Clone, Copy)]
#[repr(C)]
pub struct BuiltRulesNumbers {
    pub number: u32,
    pub detail: u64,
    pub record: RuleRecord,
}

#[derive(Clone, Copy)]
#[repr(C)]
pub struct VerdictNumbers {
    pub number: u32,
    pub action: u16,
    pub reads: u32,
}

#[tactic(auto, unfolding(table::specs::Refusals::outcome_of))]
impl From<Result<RuleRecord, Refusal>> for BuiltRulesNumbers {
    ghost from_gives = { λ built numbers. numbers ≡ rule_build_numbers built };

    fn from(built: Result<RuleRecord, Refusal>) -> BuiltRulesNumbers {
        match built {
            Ok(record) => BuiltRulesNumbers {
                number: 0,
                detail: 0,
                record,
            },
            Err(refusal) => BuiltRulesNumbers {
                number: refusal.number(),
                detail: refusal.detail(),
                record: RuleRecord::default(),
            },
        }
    }
}

// A discard's action is 65,535, and without a rule it is 0.
impl From<Result<Verdict, LookupRefusal>> for VerdictNumbers {
    ghost from_gives = { λ verdict numbers. numbers ≡ verdict_numbers (said verdict) };

    fn from(verdict: Result<Verdict, LookupRefusal>) -> VerdictNumbers {
        match verdict {
            Ok(Verdict::Act { action, reads }) => VerdictNumbers {
                number: 0,
                action,
                reads,
            },
            Ok(Verdict::Discard { reads }) => VerdictNumbers {
                number: 0,
                action: DISCARD,
                reads,
            },
            Ok(Verdict::NoRule { reads }) => VerdictNumbers {
                number: 0,
                action: 0,
                reads,
            },
            Err(refusal) => VerdictNumbers {
                number: refusal.number(),
                action: 0,
                reads: 0,
            },
        }
    }
}

// Turns rules into a record, the element rows of all tries and a list of source tries, one stride a level or one a block, each trie with
// the least number of rows: tests 1 to 7, where 6 and 7 count over all tries. Accepted, all of scratch is 0. Refused, the record is 0 and
// neither elements nor list change; scratch is 0 after 7, else kept.
pub fn hongsamuk_build_rules(
    kind: Kind,
    width: u32,
    levels: u32,
    links: u16,
    rules: RuleLists,
    scratch: &mut [u64],
    rows: &mut RowsMut,
    list: &mut [u32],
) -> BuiltRulesNumbers
    ensures same { SameLists rows.old rows.new }
    ensures exact { Told
        (ExactRules (kind_of kind) width levels links
        (rules_in rules.entry) scratch.old (held rows.old) list.old scratch.new (held rows.new) list.new)
        rule_build_numbers result }
    ensures meaning { Told
        (AllowedRules (kind_of kind) width levels links
        (rules_in rules.entry) scratch.old (held rows.old) list.old scratch.new (held rows.new) list.new)
        rule_build_numbers result }
{
    let built = rules::build_rules(kind, width, levels, links, rules, scratch, rows, list);
    BuiltRulesNumbers::from(built)
}

// Judges a packet by its two addresses: tests 1, 2, 8 (either address), 9. Over the record and lists that one accepted build left
// together it is the action of the rule that wins, a discard's too, or none. No list changes.
pub fn hongsamuk_classify(
    rec: RuleRecord,
    rows: Rows,
    list: &[u32],
    dest: u32,
    source: u32,
) -> VerdictNumbers
    ensures exact { result ≡ verdict_numbers (classify_of WIDTH rec (lent rows.entry) list.now dest source) }
    ensures meaning { Told (Classified rec (lent rows.entry) list.now dest source WIDTH) verdict_numbers result }
{
    VerdictNumbers::from(verdicts::classify(rec, rows, list, dest, source))
}
