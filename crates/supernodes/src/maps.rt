// One supernode's maps and hops, from the links of its places (02 [1]): place i is bit i, the lowest first.
ghost use Rattle.std.specs.Prelude.{◌≡◌, ◌+◌, ◌*◌, ◌^◌, ◌<◌, ◌≤◌, length};
ghost use Rattle.pieces.specs.Maps.{INTERNAL, EXTERNAL, digit, map_of, if_mark};
ghost use Rattle.supernodes.specs.Spots.{all_places};
ghost use Rattle.walk.specs.Limits.{HOPS};
ghost use Rattle.supernodes.specs.Marking.{LinksFit, marked_place, taken_branch, place_marks, HopsPut, HopsIn};

use crate::limits::{MARK, PLACES};
use crate::nodes::asked;
use visits::{EXTERNAL, INTERNAL};

// Bit i where `on`, else nothing.
fn bit_if(on: bool, i: usize) -> u16
    requires { i < 16 }
    ensures { result ≡ digit on * 2 ^ i }
{
    if on { 1u16 << i } else { 0 }
}

// The internal map: which of its own places have an entry.
#[tactic(auto, using(crate::proofs::Marking::map_none, crate::proofs::Marking::map_more, crate::proofs::Marking::map_fits))]
pub(crate) fn internal_map(rows: &[u64], p: &[usize; PLACES]) -> u16
    requires { LinksFit rows.now p.now }
    ensures { result ≡ map_of INTERNAL (marked_place rows.now p.now) }
{
    let mut map = 0u16;
    for i in 0..INTERNAL {
        map += bit_if(0 < asked(rows, p[i], MARK), i);
    }
    map
}

// The external map: behind which of its branches a child begins. (A loop of its own: one over any test would want that test's contract
// beside it, which is longer than the loop.)
#[tactic(auto, using(crate::proofs::Marking::map_none, crate::proofs::Marking::map_more, crate::proofs::Marking::map_fits))]
pub(crate) fn external_map(p: &[usize; PLACES]) -> u16
    requires { length p.now ≡ all_places }
    ensures { result ≡ map_of EXTERNAL (taken_branch p.now) }
{
    let mut map = 0u16;
    for i in 0..EXTERNAL {
        map += bit_if(0 < p[INTERNAL + i], i);
    }
    map
}

// A mark that is one becomes hop number `next`; returns the number after.
fn put_hop(hops: &mut [u16], next: usize, mark: usize) -> usize
    requires { (mark < HOPS) × (next + length (if_mark mark) ≤ length hops.old) }
    ensures { HopsPut hops.old next (if_mark mark) result hops.new }
{
    if mark == 0 {
        return next;
    }
    hops[next] = mark as u16;
    next + 1
}

// The marks of its own places in level order become hops, from number `first` on; returns the number after the last.
#[tactic(auto, using(crate::proofs::Marking::put_none, crate::proofs::Marking::marks_first, crate::proofs::Marking::mark_room))]
pub(crate) fn put_hops(rows: &[u64], p: &[usize; PLACES], hops: &mut [u16], first: usize) -> usize
    requires { HopsIn rows.now p.now hops.old first }
    ensures { HopsPut hops.old first (place_marks rows.now p.now INTERNAL) result hops.new }
{
    let mut next = first;
    for i in 0..INTERNAL {
        next = put_hop(hops, next, asked(rows, p[i], MARK));
    }
    next
}
