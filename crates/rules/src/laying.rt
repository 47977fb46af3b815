// The tries, laid one after the other: each an ordinary build of its table, in the element lists from its place on (02, [6]).
ghost use Rattle.std.specs.Prelude.{◌+◌, ◌*◌, ◌^◌, ◌≤◌, ◌<◌, length, suc};
ghost use Rattle.walk.specs.Rows.{lists, root};
ghost use Rattle.walk.specs.Lent.{held, SameLists};
ghost use Rattle.choosers.specs.Kinds.{kind_of};
ghost use Rattle.verdicts.specs.Limits.{trie_row_cells};
ghost use Rattle.table.specs.Limits.{link_limit};
ghost use Rattle.table.specs.Refusals.{outcome_of};
ghost use Rattle.tries.specs.Build.{record_of, BuildIs};
ghost use Rattle.tries.specs.Limits.{ELEMENTS};
ghost use Rattle.rules.specs.Tables.{tables};
ghost use Rattle.rules.specs.Splitting.{split_table, CanSplit};
ghost use Rattle.rules.specs.Laying.{CanLayAt, LaysAt, PutsRow, LaysSource, next_of, CanLaySources, LaidTo};

use crate::counting::nodes_of;
use crate::linking::nearest;
use crate::split::Split;
use choosers::ROW;
use table::{Entries, LINKS, Refusal};
use tries::build;
use verdicts::{NEXT, OWN_ELEMENTS, PLACE, ROOT, TRIE_ROW};
use walk::{Record, RowsMut};

// Builds a table's trie in four lists. They come apart from one another, since parts of lists behind a `&mut` struct cannot be lent
// together.
fn build_lists(
    split: &Split,
    entries: Entries,
    scratch: &mut [u64],
    hops: &mut [u16],
    lengths: &mut [u8],
    links: &mut [u32],
    strides: &mut [u8],
) -> Result<Record, Refusal>
    ensures { BuildIs (kind_of split.now.kind) split.now.width split.now.levels link_limit
        entries.entry.value.now entries.entry.length.now entries.entry.hop.now
        scratch.old (lists hops.old lengths.old links.old strides.old) (outcome_of result) (record_of result)
        scratch.new (lists hops.new lengths.new links.new strides.new) }
{
    let mut rows = RowsMut {
        hop: hops,
        length: lengths,
        link: links,
        stride: strides,
    };
    build(
        split.kind,
        split.width,
        split.levels,
        LINKS,
        entries,
        scratch,
        &mut rows,
    )
}

// Builds the trie of a table that has passed its tests at a place. Only the scratch rows that it needs are lent on, since a build
// zeroes all that it is lent.
fn lay_lists(
    split: &Split,
    entries: Entries,
    scratch: &mut [u64],
    hops: &mut [u16],
    lengths: &mut [u8],
    links: &mut [u32],
    strides: &mut [u8],
    place: usize,
) -> Record
    requires { CanLayAt (kind_of split.now.kind) split.now.width split.now.levels entries.value.now entries.length.now entries.hop.now
        (length scratch.old) place (lists hops.old lengths.old links.old strides.old) }
    ensures { LaysAt (kind_of split.now.kind) split.now.width split.now.levels
        entries.entry.value.now entries.entry.length.now entries.entry.hop.now place
        (lists hops.old lengths.old links.old strides.old) result (lists hops.new lengths.new links.new strides.new) }
{
    let words = nodes_of(split, entries) * ROW;
    let built = build_lists(
        split,
        entries,
        &mut scratch[0..words],
        &mut hops[place..],
        &mut lengths[place..],
        &mut links[place..],
        &mut strides[place..],
    );
    built.unwrap()
}

// The same, of rows.
pub(crate) fn lay_at(
    split: &Split,
    entries: Entries,
    scratch: &mut [u64],
    rows: &mut RowsMut,
    place: usize,
) -> Record
    requires { CanLayAt (kind_of split.now.kind) split.now.width split.now.levels entries.value.now entries.length.now entries.hop.now
        (length scratch.old) place (held rows.old) }
    ensures same { SameLists rows.old rows.new }
    ensures laid { LaysAt (kind_of split.now.kind) split.now.width split.now.levels
        entries.entry.value.now entries.entry.length.now entries.entry.hop.now place (held rows.old) result (held rows.new) }
{
    lay_lists(
        split,
        entries,
        scratch,
        rows.hop,
        rows.length,
        rows.link,
        rows.stride,
        place,
    )
}

// Writes row g of the list of tries: its trie's floor, root stride, place and E, and the number of the next trie to visit.
fn put_row(list: &mut [u32], g: usize, rec: Record, place: usize, next: usize)
    requires { (g * trie_row_cells + trie_row_cells ≤ length list.old) × (place < 2 ^ 32) × (next < 2 ^ 32) }
    ensures { PutsRow list.old g (record { floor = rec.floor; root = root rec; place = place; elements = rec.elements; next = next })
        list.new }
{
    let row = g * TRIE_ROW;
    list[row] = u32::from(rec.floor);
    list[row + ROOT] = u32::from(rec.strides[0]);
    list[row + PLACE] = place as u32;
    list[row + OWN_ELEMENTS] = rec.elements;
    list[row + NEXT] = next as u32;
}

// Builds source trie g at a place and writes its row of the list. Answers its number of rows. (What is lent to be written stays apart, and
// `CanLayAt` is of it: a struct would be taken apart at once.)
fn lay_source(
    split: &Split,
    g: usize,
    scratch: &mut [u64],
    rows: &mut RowsMut,
    list: &mut [u32],
    place: usize,
) -> usize
    requires can_split { CanSplit split.now.width split.now.levels (tables split.now) }
    requires can_lay_at { let t = split_table (tables split.now) (suc g) in CanLayAt (kind_of split.now.kind) split.now.width split.now.levels
        t.vals t.lens t.hops (length scratch.old) place (held rows.old) }
    requires in_bounds { (g < length split.now.destinations.value.now) × (g * trie_row_cells + trie_row_cells ≤ length list.old) × (place ≤ ELEMENTS) }
    ensures same { SameLists rows.old rows.new }
    ensures laid { let t = split_table (tables split.now) (suc g) in LaysSource (kind_of split.now.kind) split.now.width split.now.levels
        t.vals t.lens t.hops place (next_of split.now.width split.now.destinations.value.now split.now.destinations.length.now g)
        (held rows.old) list.old g result (held rows.new) list.new }
{
    let rec = lay_at(split, split.part(g), scratch, rows, place);
    let next = nearest(
        split.width,
        split.destinations.value,
        split.destinations.length,
        g,
    );
    put_row(list, g, rec, place, next);
    rec.elements as usize
}

// Builds all source tries, one after the other from row `start` on, with their rows of the list. Answers the row after the last.
pub(crate) fn lay_sources(
    split: &Split,
    scratch: &mut [u64],
    rows: &mut RowsMut,
    list: &mut [u32],
    start: usize,
) -> usize
    requires { CanLaySources (kind_of split.now.kind) split.now.width split.now.levels (tables split.now) start (length scratch.old)
        (held rows.old) list.old }
    ensures same { SameLists rows.old rows.new }
    ensures laid { LaidTo (kind_of split.now.kind) split.now.width split.now.levels (tables split.now) start (held rows.old) list.old
        (length split.now.destinations.value.now) result (held rows.new) list.new }
{
    let mut place = start;
    for g in 0..split.destinations.value.len() {
        place += lay_source(split, g, scratch, rows, list, place);
    }
    place
}
