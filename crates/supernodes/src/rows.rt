// The rows of all supernodes, in the order of the queue: each one's children are numbered after those of all before it, and so are its
// hops.
ghost use Rattle.std.specs.Prelude.{◌≡◌, ◌<◌};
ghost use Rattle.pieces.specs.Rows.{if_any};
ghost use Rattle.visits.specs.Rows.{row_room};
ghost use Rattle.visits.specs.Lent.{held, SameSupernodes};
ghost use Rattle.supernodes.specs.Marking.{NUMBERS, row_with, RowSet, SupernodeAsk, SupernodeDone};
ghost use Rattle.supernodes.specs.Filing.{FileAsk, Filed};

use crate::limits::QUEUE;
use crate::maps::{external_map, internal_map, put_hops};
use crate::nodes::asked;
use crate::places::places;
use visits::SupernodesMut;

// The numbers at which the next supernode's children and hops begin.
#[derive(Clone, Copy)]
struct Next {
    child: usize,
    hop: usize,
}

// A first number, 0 where the map says that there is none: 02 has 0 there, and C reads it.
fn first_of(map: u16, x: usize) -> u32
    requires { x < NUMBERS }
    ensures { result ≡ if_any map x }
{
    if map == 0 {
        return 0;
    }
    x as u32
}

// Writes row i: the only place that does.
fn write_row(i: usize, own: u16, below: u16, next: Next, rows: &mut SupernodesMut)
    requires { (i < row_room (held rows.old)) × (next.child < NUMBERS) × (next.hop < NUMBERS) }
    ensures same { SameSupernodes rows.old rows.new }
    ensures wrote { RowSet (held rows.old) i (row_with own below next.child next.hop) (held rows.new) }
    ensures hops { rows.new.hops.now ≡ rows.old.hops.now }
{
    rows.internal[i] = own;
    rows.external[i] = below;
    rows.child[i] = first_of(below, next.child);
    rows.first[i] = first_of(own, next.hop);
}

// Writes the row and the hops of the supernode at place i of the queue, whose children and hops begin at these numbers.
fn write_supernode(nodes: &[u64], i: usize, next: Next, rows: &mut SupernodesMut) -> Next
    requires { SupernodeAsk nodes.now i next.child next.hop (held rows.old) rows.old.hops.now }
    ensures same { SameSupernodes rows.old rows.new }
    ensures wrote { SupernodeDone nodes.now i next.child next.hop (held rows.old) rows.old.hops.now
        result.child result.hop (held rows.new) rows.new.hops.now }
{
    let p = places(nodes, asked(nodes, i + 1, QUEUE));
    let own = internal_map(nodes, &p);
    let below = external_map(&p);
    write_row(i, own, below, next, rows);
    Next {
        child: next.child + u16::count_ones(below) as usize,
        hop: put_hops(nodes, &p, rows.hops, next.hop),
    }
}

// Writes the rows and the hops of the first `count` supernodes of the queue.
pub(crate) fn write_rows(nodes: &[u64], count: usize, rows: &mut SupernodesMut)
    requires { FileAsk nodes.now count (held rows.old) rows.old.hops.now }
    ensures same { SameSupernodes rows.old rows.new }
    ensures wrote { Filed nodes.now count (held rows.old) rows.old.hops.now (held rows.new) rows.new.hops.now }
{
    let mut next = Next { child: 1, hop: 0 };
    for i in 0..count {
        next = write_supernode(nodes, i, next, rows);
    }
}
