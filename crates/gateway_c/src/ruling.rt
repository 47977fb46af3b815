// Rules of two fields for C (02, [6]): the builds and the classification.
ghost use Rattle.std.specs.Prelude.{◌≡◌};
ghost use Rattle.table.specs.Answers.{Told};
ghost use Rattle.strides.specs.Cheapest.{fixed, variable};
ghost use Rattle.walk.specs.Limits.{WIDTH};
ghost use Rattle.walk.specs.Rows.{lists};
ghost use Rattle.fields.specs.Rules.{rules};
ghost use Rattle.verdicts.specs.Classify.{classify_of};
ghost use Rattle.verdicts.specs.Meaning.{Classified};
ghost use Rattle.gateway.specs.Numbers.{rule_build_numbers, verdict_numbers};
ghost use Rattle.gateway.specs.Allowed.{ExactRules, AllowedRules};

use fields::RuleLists;
use gateway::{BuiltRulesNumbers, Kind, VerdictNumbers};
use verdicts::RuleRecord;
use walk::{Rows, RowsMut};

// Turns rules into a record, the element rows of all tries and a list of source tries, one stride a level, each trie with the least
// number of rows: tests 1 to 7, where 6 and 7 count over all tries. Accepted, all of scratch is 0. Refused, the record is 0 and neither
// elements nor list change; scratch is 0 after 7, else kept.
#[unsafe(no_mangle)]
pub extern "C" fn hongsamuk_build_rules_fixed(
    width: u32,
    levels: u32,
    links: u16,
    dvals: &[u32],
    dlens: &[u8],
    svals: &[u32],
    slens: &[u8],
    actions: &[u16],
    scratch: &mut [u64],
    rowhops: &mut [u16],
    rowlens: &mut [u8],
    rowlinks: &mut [u32],
    rowstrides: &mut [u8],
    list: &mut [u32],
) -> BuiltRulesNumbers
    ensures exact { Told
        (ExactRules fixed width levels links
        (rules dvals.now dlens.now svals.now slens.now actions.now) scratch.old
        (lists rowhops.old rowlens.old rowlinks.old rowstrides.old) list.old scratch.new
        (lists rowhops.new rowlens.new rowlinks.new rowstrides.new) list.new) rule_build_numbers result }
    ensures meaning { Told
        (AllowedRules fixed width levels links
        (rules dvals.now dlens.now svals.now slens.now actions.now) scratch.old
        (lists rowhops.old rowlens.old rowlinks.old rowstrides.old) list.old scratch.new
        (lists rowhops.new rowlens.new rowlinks.new rowstrides.new) list.new) rule_build_numbers result }
{
    let rules = RuleLists {
        dvals,
        dlens,
        svals,
        slens,
        actions,
    };
    let mut rows = RowsMut {
        hop: rowhops,
        length: rowlens,
        link: rowlinks,
        stride: rowstrides,
    };
    gateway::hongsamuk_build_rules(
        Kind::Fixed,
        width,
        levels,
        links,
        rules,
        scratch,
        &mut rows,
        list,
    )
}

// The same with one stride a block: the destination's record names its root's only.
#[unsafe(no_mangle)]
pub extern "C" fn hongsamuk_build_rules_variable(
    width: u32,
    levels: u32,
    links: u16,
    dvals: &[u32],
    dlens: &[u8],
    svals: &[u32],
    slens: &[u8],
    actions: &[u16],
    scratch: &mut [u64],
    rowhops: &mut [u16],
    rowlens: &mut [u8],
    rowlinks: &mut [u32],
    rowstrides: &mut [u8],
    list: &mut [u32],
) -> BuiltRulesNumbers
    ensures exact { Told
        (ExactRules variable width levels links
        (rules dvals.now dlens.now svals.now slens.now actions.now) scratch.old
        (lists rowhops.old rowlens.old rowlinks.old rowstrides.old) list.old scratch.new
        (lists rowhops.new rowlens.new rowlinks.new rowstrides.new) list.new) rule_build_numbers result }
    ensures meaning { Told
        (AllowedRules variable width levels links
        (rules dvals.now dlens.now svals.now slens.now actions.now) scratch.old
        (lists rowhops.old rowlens.old rowlinks.old rowstrides.old) list.old scratch.new
        (lists rowhops.new rowlens.new rowlinks.new rowstrides.new) list.new) rule_build_numbers result }
{
    let rules = RuleLists {
        dvals,
        dlens,
        svals,
        slens,
        actions,
    };
    let mut rows = RowsMut {
        hop: rowhops,
        length: rowlens,
        link: rowlinks,
        stride: rowstrides,
    };
    gateway::hongsamuk_build_rules(
        Kind::Variable,
        width,
        levels,
        links,
        rules,
        scratch,
        &mut rows,
        list,
    )
}

// Judges a packet by its two addresses: tests 1, 2, 8 (either address), 9. Over the record and lists that one accepted build left
// together it is the action of the rule that wins, a discard's too, or none. No list changes.
#[unsafe(no_mangle)]
pub extern "C" fn hongsamuk_classify(
    rec: RuleRecord,
    rowhops: &[u16],
    rowlens: &[u8],
    rowlinks: &[u32],
    rowstrides: &[u8],
    list: &[u32],
    dest: u32,
    source: u32,
) -> VerdictNumbers
    ensures exact { result ≡ verdict_numbers
        (classify_of WIDTH rec (lists rowhops.now rowlens.now rowlinks.now rowstrides.now)
        list.now dest source) }
    ensures meaning { Told
        (Classified rec (lists rowhops.now rowlens.now rowlinks.now rowstrides.now)
        list.now dest source WIDTH)
        verdict_numbers result }
{
    let rows = Rows {
        hop: rowhops,
        length: rowlens,
        link: rowlinks,
        stride: rowstrides,
    };
    gateway::hongsamuk_classify(rec, rows, list, dest, source)
}
