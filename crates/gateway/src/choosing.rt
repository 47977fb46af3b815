// The stride choosers for C (01, "Stride choices").
ghost use Rattle.std.specs.Prelude.{◌≡◌};
ghost use Rattle.table.specs.Answers.{Told};
ghost use Rattle.choosers.specs.Kinds.{kind_of};
ghost use Rattle.gateway.specs.Numbers.{choice_numbers};
ghost use Rattle.gateway.specs.Allowed.{ExactChoice, AllowedChoice};

use table::{Entries, Refusal};
use tries::{Chosen, Kind, LEVELS};

#[derive(Clone, Copy)]
#[repr(C)]
pub struct ChosenNumbers {
    pub number: u32,
    pub detail: u64,
    pub cost: u64,
    pub strides: [u8; LEVELS as usize],
}

// (The strides go through a variable: the borrow checker takes no array that goes into a literal straight.)
#[tactic(auto, unfolding(table::specs::Refusals::outcome_of, table::specs::Lists::padded))]
impl From<Result<Chosen, Refusal>> for ChosenNumbers {
    ghost from_gives = { λ chosen numbers. numbers ≡ choice_numbers chosen };

    fn from(chosen: Result<Chosen, Refusal>) -> ChosenNumbers {
        match chosen {
            Ok(chosen) => {
                let strides = chosen.strides;
                ChosenNumbers {
                    number: 0,
                    detail: 0,
                    cost: chosen.cost,
                    strides,
                }
            }
            Err(refusal) => {
                let strides = [0; LEVELS as usize];
                ChosenNumbers {
                    number: refusal.number(),
                    detail: refusal.detail(),
                    cost: 0,
                    strides,
                }
            }
        }
    }
}

// The least cost of a choice of the kind with at most `levels` levels, and the strides that the record names (of one stride a level all,
// of one stride a block the root's): tests 1 to 6. Accepted, all of scratch is 0; refused, cost and strides are 0 and scratch is as it
// was. No other list changes.
pub fn hongsamuk_choose(
    kind: Kind,
    width: u32,
    levels: u32,
    links: u16,
    entries: Entries,
    scratch: &mut [u64],
) -> ChosenNumbers
    ensures exact { Told
        (ExactChoice (kind_of kind) width levels links
        entries.entry.value.now entries.entry.length.now entries.entry.hop.now scratch.old scratch.new)
        choice_numbers result }
    ensures meaning { Told
        (AllowedChoice (kind_of kind) width levels links
        entries.entry.value.now entries.entry.length.now entries.entry.hop.now scratch.old scratch.new)
        choice_numbers result }
{
    ChosenNumbers::from(tries::choose(kind, width, levels, links, entries, scratch))
}
