// How many nodes a table's 1-bit trie has, counted without touching any list: in a sorted table an entry shares with the
// one before all the proper starts that it shares with any (01, refusal 6).
ghost use Rattle.std.specs.Prelude.{◌≡◌, ◌<◌, ◌≤◌, length};
ghost use Rattle.table.specs.Prefix.{IsPrefix};
ghost use Rattle.table.specs.Table.{at};
ghost use Rattle.strides.specs.Insertion.{new_after, new_nodes, node_count};
ghost use Rattle.walk.specs.Limits.{WIDTH};
ghost use Rattle.choosers.specs.Limits.{ENTRIES};
ghost use Rattle.choosers.specs.Making.{Prefixes};

use table::{Entries, shared_length};

// The nodes that the entry (b, blen) adds after its neighbour (a, alen).
#[tactic(auto, using(table::proofs::Means::shared_found, crate::proofs::Counts::same_shared, crate::proofs::Counts::new_after_lem))]
fn new_nodes(width: u32, a: u32, alen: u8, b: u32, blen: u8) -> usize
    requires width_nonzero { (0 < width) × (width ≤ WIDTH) }
    requires prefix { IsPrefix width a alen × IsPrefix width b blen }
    ensures { result ≡ new_after width a alen b blen }
{
    // Of two prefixes it is never refused.
    let Ok(shared) = shared_length(width, a, alen, b, blen) else {
        return 0;
    };
    let most = usize::from(alen.min(blen));
    usize::from(blen) - (shared as usize + 1).min(most)
}

// The nodes that entry i adds to those before it.
#[tactic(auto, using(crate::proofs::Counts::new_next), unfolding(strides::specs::Insertion::new_nodes))]
fn new_at(width: u32, entries: Entries, i: usize) -> usize
    requires { Prefixes width entries.value.now entries.length.now × (i < length entries.value.now) }
    ensures { result ≡ new_nodes width (at entries.entry.value.now) (at entries.entry.length.now) i }
{
    let Entries { value, length, .. } = entries;
    if i == 0 {
        return usize::from(length[0]);
    }
    new_nodes(width, value[i - 1], length[i - 1], value[i], length[i])
}

// The nodes of the whole table.
#[tactic(auto, unfolding(strides::specs::Insertion::node_count))]
pub(crate) fn node_count(width: u32, entries: Entries) -> usize
    requires { Prefixes width entries.value.now entries.length.now × (length entries.value.now ≤ ENTRIES) }
    ensures { result ≡ node_count width (at entries.entry.value.now) (at entries.entry.length.now) (length entries.entry.value.now) }
{
    let mut count = 0;
    for i in 0..entries.value.len() {
        count += new_at(width, entries, i);
    }
    count
}
