// How the builder reads the scratch rows that a plan left (choosers, `specs/Scratch.antt`): by links, a number of a row, and the stride of
// a block. The choosers read a number in the same way; a function that needs a row to be there is no public call, so it stands here again.
// 0 for none is as choosers' scratch has it.
ghost use Rattle.std.specs.Prelude.{◌≡◌, ◌*◌, ◌<◌, ◌≤◌, length};
ghost use Rattle.walk.specs.Limits.{LEVELS};
ghost use Rattle.choosers.specs.Scratch.{ROW, ask, stride_at};

use choosers::{BEFORE_STRIDES, ROW};

// A trie in scratch rows, and the plan: a fixed choice's strides from the front, else 0, as choosers' `Plan` has it.
#[derive(Clone, Copy)]
pub(crate) struct Source<'a> {
    pub(crate) rows: &'a [u64],
    pub(crate) plan: &'a [u8],
}

impl Source<'_> {
    // Column c of the row that the link k names; 0 where it names none.
    #[tactic(auto, unfolding(choosers::specs::Scratch::ask))]
    pub(crate) fn asked(self, k: usize, c: usize) -> usize
        requires { (k * ROW ≤ length self.rows.now) × (c < ROW) }
        ensures { result ≡ ask self.entry.rows.now k c }
    {
        if k == 0 {
            return 0;
        }
        self.rows[(k - 1) * ROW + c] as usize
    }

    // The stride of a block at link k with r levels left: the plan's, where the choice is fixed, else the row's own.
    #[tactic(auto, unfolding(choosers::specs::Scratch::stride_at))]
    pub(crate) fn stride_at(self, k: usize, r: usize) -> usize
        requires { (k * ROW ≤ length self.rows.now) × (0 < k → 0 < r) × (r ≤ length self.plan.now) × (length self.plan.now ≤ LEVELS) }
        ensures { result ≡ stride_at self.entry.rows.now self.entry.plan.now k r }
    {
        if k == 0 {
            return 0;
        }
        if self.plan[0] == 0 {
            return self.asked(k, BEFORE_STRIDES + r);
        }
        usize::from(self.plan[self.plan.len() - r])
    }
}
