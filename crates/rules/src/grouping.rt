// Rules of one destination are neighbours: one walk over the rules finds where each destination's run begins.
ghost use Rattle.std.specs.Prelude.{◌≡◌, ◌≤◌, ◌<◌, length};
ghost use Rattle.table.specs.Table.{at};
ghost use Rattle.fields.specs.Limits.{rule_limit};
ghost use Rattle.fields.specs.Runs.{begins_run};
ghost use Rattle.rules.specs.Gathering.{Gathered, Taken};

// Whether rule i has another destination than the rule before, or is the first. (Two tests: as an inequality of pairs it is no shorter.)
#[tactic(auto, using(crate::proofs::Gathering::begins_first, crate::proofs::Gathering::begins_value, crate::proofs::Gathering::begins_length))]
fn is_new(dvals: &[u32], dlens: &[u8], i: usize) -> bool
    requires { (i < length dvals.now) × (i < length dlens.now) }
    ensures { result ≡ begins_run (at dvals.now) (at dlens.now) i }
{
    i == 0 || dvals[i - 1] != dvals[i] || dlens[i - 1] != dlens[i]
}

// Takes the destination of rule i to the m that were found, where it is a new one. Returns how many there are then. (The lists stay apart:
// this and `gather` are all that take the three, and `build_rules` uses their fronts next, as a table's.)
#[tactic(auto, using(crate::specs::Gathering::new_run, crate::specs::Gathering::same_run))]
fn taken(
    dvals: &[u32],
    dlens: &[u8],
    i: usize,
    m: usize,
    vals: &mut [u32],
    lens: &mut [u8],
    nums: &mut [u16],
) -> usize
    requires i_in_bounds { (i < length dvals.now) × (i < length dlens.now) × (m < rule_limit) }
    requires m_in_bounds { (m < length vals.old) × (m < length lens.old) × (m < length nums.old) }
    ensures { Taken dvals.now dlens.now i m vals.old lens.old nums.old
        result vals.new lens.new nums.new }
{
    if is_new(dvals, dlens, i) {
        vals[m] = dvals[i];
        lens[m] = dlens[i];
        nums[m] = (m + 1) as u16;
        return m + 1;
    }
    m
}

// Gathers the distinct destinations of the rules: their values, lengths and numbers from 1 on at the front of the three lists, where
// their runs begin in `first`, and after the last of these places the number of rules. Returns how many destinations there are.
pub(crate) fn gather(
    dvals: &[u32],
    dlens: &[u8],
    first: &mut [u16],
    vals: &mut [u32],
    lens: &mut [u8],
    nums: &mut [u16],
) -> usize
    requires dlens_len { (length dlens.now ≡ length dvals.now) × (length dvals.now ≤ rule_limit) × (length dvals.now < length first.old) }
    requires dvals_in_bounds { (length dvals.now ≤ length vals.old) × (length dvals.now ≤ length lens.old) × (length dvals.now ≤ length nums.old) }
    ensures { Gathered dvals.now dlens.now (length dvals.now) result
        first.new vals.new lens.new nums.new }
{
    let mut m = 0;
    first[0] = 0;
    for i in 0..dvals.len() {
        m = taken(dvals, dlens, i, m, vals, lens, nums);
        first[m] = (i + 1) as u16;
    }
    m
}
