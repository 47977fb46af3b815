// The build (01, "The element rows" and "Refusals"): a table becomes a record and element rows.
ghost use Rattle.std.specs.Prelude.{◌≡◌, ◌||◌, List, ℕ, ltb};
ghost use Rattle.table.specs.Refusals.{outcome_of};
ghost use Rattle.table.specs.Table.{Table};
ghost use Rattle.walk.specs.Lent.{held, SameLists};
ghost use Rattle.choosers.specs.Kinds.{kind_of};
ghost use Rattle.layout.specs.Laid.{table_floor};
ghost use Rattle.tries.specs.Limits.{ELEMENTS};
ghost use Rattle.tries.specs.Build.{record_of, BuildIs, Builds};
ghost use Rattle.tries.specs.FromPlan.{CanBuild, RowsDone};

use crate::blocks::lay;
use crate::limits::ELEMENTS;
use crate::scratch::Source;
use choosers::{Kind, Plan, plan_choice};
use table::{Entries, Refusal, zero};
use walk::{Record, RowsMut};

// Test 7: whether e rows are more than there is room for, or more than there may be.
pub fn is_crowded(e: u64, room: usize) -> bool
    ensures { result ≡ (ltb room e || ltb ELEMENTS e) }
{
    (room as u64) < e || u64::from(ELEMENTS) < e
}

// The hop of the entry of length 0, which can only be a table's first; 0 where there is none, as the record holds it.
#[tactic(auto, using(crate::proofs::BuildSteps::floor_none, crate::proofs::BuildSteps::floor_first))]
fn floor_hop(entries: Entries) -> u16
    ensures { (W : ℕ) (vs : List ℕ) → Table W vs entries.entry.length.now entries.entry.hop.now
        → result ≡ table_floor W vs entries.entry.length.now entries.entry.hop.now }
{
    if entries.length.len() == 0 {
        return 0;
    }
    if entries.hop.len() == 0 {
        return 0;
    }
    if entries.length[0] == 0 {
        entries.hop[0]
    } else {
        0
    }
}

// Past test 6, with the plan in scratch: refuses for room (7) or writes the rows. (Width, levels and links stay numbers, as choosers has
// them.)
fn build_rows(
    p: Plan,
    width: u32,
    levels: u32,
    entries: Entries,
    scratch: &[u64],
    rows: &mut RowsMut,
) -> Result<Record, Refusal>
    requires { CanBuild width levels entries.length.now entries.hop.now p.cost p.strides p.plan p.root scratch.now }
    ensures same { SameLists rows.old rows.new }
    ensures done { RowsDone width levels entries.entry.length.now entries.entry.hop.now p.cost p.strides p.plan p.root scratch.now
        (held rows.old) (outcome_of result) (record_of result) (held rows.new) }
{
    let e = p.cost;
    if is_crowded(e, rows.len()) {
        return Err(Refusal::Room { needed: e });
    }
    let k = levels as usize;
    let plan = p.plan;
    let trie = Source {
        rows: scratch,
        plan: &plan[..k],
    };
    lay(&trie, p.root, width as usize, k, rows);
    let strides = p.strides;
    Ok(Record {
        width,
        levels,
        elements: e as u32,
        floor: floor_hop(entries),
        strides,
    })
}

// Turns a table into a record and element rows, with the least number of rows of its kind, or refuses it by the first of
// the tests 1 to 7 (7 with the least number of rows). `rows` may be longer: later rows are kept. Refused, no element changes; 1 to 6 keep
// scratch too, else all of it is 0.
pub fn build(
    kind: Kind,
    width: u32,
    levels: u32,
    links: u16,
    entries: Entries,
    scratch: &mut [u64],
    rows: &mut RowsMut,
) -> Result<Record, Refusal>
    ensures same { SameLists rows.old rows.new }
    ensures exact { BuildIs (kind_of kind) width levels links
        entries.entry.value.now entries.entry.length.now entries.entry.hop.now scratch.old (held rows.old)
        (outcome_of result) (record_of result) scratch.new (held rows.new) }
    ensures meaning { Builds (kind_of kind) width levels links
        entries.entry.value.now entries.entry.length.now entries.entry.hop.now scratch.old (held rows.old)
        (outcome_of result) (record_of result) scratch.new (held rows.new) }
{
    let p = plan_choice(kind, width, levels, links, entries, scratch)?;
    // No `?`: refused for room, scratch is cleared as well.
    let built = build_rows(p, width, levels, entries, scratch, rows);
    zero(scratch);
    built
}
