// The number of the next source trie to visit: that of the longest destination that is shorter and a start.
ghost use Rattle.std.specs.Prelude.{◌≡◌, ◌≤◌, ◌<◌, length};
ghost use Rattle.table.specs.Limits.{width_limit};
ghost use Rattle.table.specs.Prefix.{starts_with};
ghost use Rattle.table.specs.Table.{at};
ghost use Rattle.table.specs.Longest.{matches};
ghost use Rattle.fields.specs.Runs.{last_before};
ghost use Rattle.rules.specs.Gathering.{Short};

// Whether the prefix (p, b) begins v. (`table` has the same test, not public: it asks that b is at most the width. The width stays a
// number: C passes it.)
#[tactic(auto, unfolding(table::specs::Prefix::start, table::specs::Prefix::starts_with))]
fn is_begun(width: u32, p: u32, b: u8, v: u32) -> bool
    requires { (width ≤ width_limit) × (b ≤ width) }
    ensures { result ≡ starts_with width p b v }
{
    let rest = width - u32::from(b);
    u64::from(v) >> rest == u64::from(p) >> rest
}

// The number of the last destination before g that begins it; 0 and no Option where none does, since it goes into the list so. One by one:
// those that begin it do not stand together, so there is no search by halves. (Two of a table's three lists: no more is read.)
pub(crate) fn nearest(width: u32, vals: &[u32], lens: &[u8], g: usize) -> usize
    requires width_le_width_limit { (width ≤ width_limit) × (length lens.now ≡ length vals.now) × (g < length vals.now) }
    requires short { Short width lens.now }
    ensures { result ≡ last_before (matches width (at vals.now) (at lens.now) (at vals.now g)) g }
{
    let v = vals[g];
    for j in (0..g).rev() {
        if is_begun(width, vals[j], lens[j], v) {
            return j + 1;
        }
    }
    0
}
