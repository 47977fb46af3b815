// Supernodes breadth first: the queue column holds the link of each supernode's first node, in order. A supernode's children, the nodes
// four levels below, join the end when its turn comes.
ghost use Rattle.supernodes.specs.Waiting.{PushAsk, Pushed, DrainAsk, Drained, LineAsk, Lined};

use crate::limits::{LEFT, QUEUE, RIGHT, STEP};
use crate::nodes::{asked, put};

// The nodes c levels below link k, left to right, join the queue at place tail; returns the next place.
fn push(rows: &mut [u64], k: usize, c: usize, tail: usize) -> usize
    requires { PushAsk rows.old k c tail }
    ensures { Pushed rows.old k c tail result rows.new }
{
    if k == 0 {
        return tail;
    }
    if c == 0 {
        put(rows, tail, QUEUE, k);
        return tail + 1;
    }
    let left = asked(rows, k, LEFT);
    let right = asked(rows, k, RIGHT);
    let next = push(rows, left, c - 1, tail);
    push(rows, right, c - 1, next)
}

// Each in the queue has its turn; returns how many there were. The queue grows meanwhile, so there is no range to go over.
fn drain(rows: &mut [u64], first: usize) -> usize
    requires { DrainAsk rows.old first }
    ensures { Drained rows.old first result rows.new }
{
    let mut tail = first;
    let mut i = 0;
    while i < tail {
        let k = asked(rows, i + 1, QUEUE);
        tail = push(rows, k, STEP, tail);
        i += 1;
    }
    tail
}

// All supernodes of the trie at link root, breadth first; returns how many there are.
pub(crate) fn line_up(rows: &mut [u64], root: usize) -> usize
    requires { LineAsk rows.old root }
    ensures { Lined rows.old root result rows.new }
{
    let first = push(rows, root, 0, 0);
    drain(rows, first)
}
