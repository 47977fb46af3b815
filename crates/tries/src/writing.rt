// How a build writes lent element rows: one row, or a run of rows below which there is no node.
ghost use Rattle.std.specs.Prelude.{◌≡◌, ◌<◌, ◌≤◌, set};
ghost use Rattle.choosers.specs.Limits.{BYTE};
ghost use Rattle.tries.specs.Limits.{LINKS};
ghost use Rattle.choosers.specs.Scratch.{MARKS};
ghost use Rattle.layout.specs.Marks.{hop_in, length_in};
ghost use Rattle.walk.specs.Rows.{lists, shortest};
ghost use Rattle.walk.specs.Lent.{held, SameLists};
ghost use Rattle.tries.specs.Filling.{Bare};

use choosers::LENGTHS;
use walk::RowsMut;

// The hop in a mark, and the length.
fn hop_in(mark: u32) -> u16
    requires { mark < MARKS }
    ensures { result ≡ hop_in mark }
{
    (mark as usize / LENGTHS) as u16
}

fn length_in(mark: u32) -> u8
    ensures { result ≡ length_in mark }
{
    (mark as usize % LENGTHS) as u8
}

// Writes element row i: hop and length are those of the mark.
pub(crate) fn write(rows: &mut RowsMut, i: usize, mark: u32, l: usize, s: usize)
    requires { (i < shortest (held rows.old)) × (mark < MARKS) × (l < LINKS) × (s < BYTE) }
    ensures same { SameLists rows.old rows.new }
    ensures wrote { held rows.new ≡ lists (set rows.old.hop.now i (hop_in mark)) (set rows.old.length.now i (length_in mark))
        (set rows.old.link.now i l) (set rows.old.stride.now i s) }
{
    rows.hop[i] = hop_in(mark);
    rows.length[i] = length_in(mark);
    rows.link[i] = l as u32;
    rows.stride[i] = s as u8;
}

// Writes the rows from `base` to before `end`, below which there is no node: all have hop and length of the mark `best` and no
// child. One list after the other, so that the compiler takes `memset` for all but the hops.
pub(crate) fn bare(rows: &mut RowsMut, base: usize, end: usize, best: u32)
    requires { (base ≤ end) × (end ≤ shortest (held rows.old)) × (best < MARKS) }
    ensures same { SameLists rows.old rows.new }
    ensures wrote { Bare base end best (held rows.old) (held rows.new) }
{
    rows.hop[base..end].fill(hop_in(best));
    rows.length[base..end].fill(length_in(best));
    rows.link[base..end].fill(0);
    rows.stride[base..end].fill(0);
}
