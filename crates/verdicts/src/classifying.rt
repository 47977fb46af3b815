// The classification of two addresses (02, [6]).
ghost use Rattle.std.specs.Prelude.{◌≡◌};
ghost use Rattle.walk.specs.Limits.{WIDTH};
ghost use Rattle.walk.specs.Lent.{lent};
ghost use Rattle.walk.specs.Answers.{hop_of};
ghost use Rattle.walk.specs.Told.{case_of, tested_number};
ghost use Rattle.verdicts.specs.Classify.{early_refusal, classify_of};
ghost use Rattle.verdicts.specs.Meaning.{Classified};
ghost use Rattle.verdicts.specs.Verdicts.{said};

use crate::record::RuleRecord;
use crate::tries::{Tries, visit_tries};
use crate::verdict::Verdict;
use table::{DISCARD, WIDTH, is_outside};
use walk::{Answer, LEVELS, LookupRefusal, Rows, is_beyond};

// The first test that fails before a row is read, in the order 1, 2, 8, 9.
#[tactic(auto, unfolding(crate::specs::Classify::early_refusal))]
fn tested(rec: RuleRecord, rows: usize, destination: u32, source: u32) -> Result<(), LookupRefusal>
    ensures { tested_number result ≡ early_refusal WIDTH rec rows destination source }
{
    let width = rec.dest.width;
    if is_outside(width, WIDTH) {
        return Err(LookupRefusal::Width);
    }
    if is_outside(rec.dest.levels, LEVELS) {
        return Err(LookupRefusal::Levels);
    }
    if is_beyond(destination, width) || is_beyond(source, width) {
        return Err(LookupRefusal::Address);
    }
    if rows < rec.elements as usize || rec.elements < rec.dest.elements {
        return Err(LookupRefusal::Damage);
    }
    Ok(())
}

// The number of the source trie that the destination's answer calls for, which is its hop, whatever it is; 0 for none. (`found.hop` is the
// same number: 01, "Forms by place", has the classifier take a lookup's answer apart, case by case.)
fn called(answer: Answer) -> u16
    ensures { result ≡ hop_of (case_of answer) }
{
    match answer {
        Answer::Match { hop, .. } => hop,
        Answer::Discard { .. } => DISCARD,
        Answer::NoRoute { .. } => 0,
    }
}

// Judges a packet by its two addresses, over any record and any lists: the action of the rule that wins, a discard or no rule, with the
// blocks read in all tries; or a refusal, 1 (width), 2 (levels), 8 (either address) or 9 (damage). No list changes.
pub fn classify(
    rec: RuleRecord,
    rows: Rows,
    list: &[u32],
    destination: u32,
    source: u32,
) -> Result<Verdict, LookupRefusal>
    ensures exact { said result ≡ classify_of WIDTH rec (lent rows.entry) list.now destination source }
    ensures meaning { Classified rec (lent rows.entry) list.now destination source WIDTH (said result) }
{
    tested(rec, rows.len(), destination, source)?;
    let own = rec.dest;
    // Past the tests it is refused for damage only.
    let found = walk::find(own, rows, destination)?;
    let tries = Tries {
        width: own.width,
        levels: own.levels,
        elements: rec.elements,
        rows,
        list,
        source,
    };
    visit_tries(tries, usize::from(called(Answer::from(found))), found.reads)
}
