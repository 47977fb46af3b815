// A sorted table is itself the binary trie: the entries that start with the same d bits are neighbours, from..to; the entry that is these
// bits can only be the first; the others part where the next bit turns 1.
ghost use Rattle.std.specs.Prelude.{◌≡◌, cond, suc, ◌+◌, ◌/◌, ◌%◌, ◌^◌, ◌<◌, ◌≤◌, length, eqb};
ghost use Rattle.table.specs.Table.{at};
ghost use Rattle.supernodes.specs.Spans.{Parted, CountAsk, CountedNodes};

use table::Entries;

// Whether bit n of x, from the right, is 1. (visits asks the same of 16 bits: as a public call this would have a `requires`.)
fn is_one(x: u32, n: u32) -> bool
    requires { n < 32 }
    ensures { result ≡ eqb (x / 2 ^ n % 2) 1 }
{
    (x >> n) % 2 == 1
}

// The first of from..to with bit n set, else `to`. (One by one: a search by halves would have to be told that the list is in order.)
pub(crate) fn split(vals: &[u32], n: u32, from: usize, to: usize) -> usize
    requires { (n < 32) × (from ≤ to) × (to ≤ length vals.now) }
    ensures { Parted vals.now n from to result }
{
    for i in from..to {
        if is_one(vals[i], n) {
            return i;
        }
    }
    to
}

// The first entry past the one of length d, which can only be the first.
pub(crate) fn past(lens: &[u8], d: u32, from: usize) -> usize
    requires { from < length lens.now }
    ensures { result ≡ cond (eqb (at lens.now from) d) (suc from) from }
{
    if u32::from(lens[from]) == d {
        return from + 1;
    }
    from
}

// Its mark, 0 where there is none. (The test is that of `past`, which `nodes_in` asks alone. Two of a table's three lists: no more is read.)
pub(crate) fn first_mark(lens: &[u8], hops: &[u16], d: u32, from: usize) -> usize
    requires { (from < length lens.now) × (from < length hops.now) }
    ensures { result ≡ cond (eqb (at lens.now from) d) (at hops.now from) 0 }
{
    if u32::from(lens[from]) == d {
        return usize::from(hops[from]);
    }
    0
}

// How many nodes the trie of the entries from..to has, which start with the same d bits. (Numbers, as of `grow`. By reference, both: by
// value the three lists were copied at each of two calls.)
pub(crate) fn nodes_in(width: u32, entries: &Entries, d: u32, from: usize, to: usize) -> usize
    requires { CountAsk width entries.now.value.now entries.now.length.now d from to }
    ensures { CountedNodes width entries.now.value.now entries.now.length.now d from to result }
{
    if from == to {
        return 0;
    }
    let first = past(entries.length, d, from);
    if first == to {
        return 1;
    }
    let mid = split(entries.value, width - d - 1, first, to);
    let a = nodes_in(width, entries, d + 1, first, mid);
    let b = nodes_in(width, entries, d + 1, mid, to);
    a + b + 1
}
