// What a classification answers (02, [6]).

// The action of the rule that wins, a discard or no rule, with the blocks read in all tries.
#[derive(Clone, Copy, Debug, PartialEq, Eq)]
pub enum Verdict {
    Act { action: u16, reads: u32 },
    Discard { reads: u32 },
    NoRule { reads: u32 },
}
