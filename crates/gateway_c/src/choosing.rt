// The stride choosers for C (01, "Stride choices").
ghost use Rattle.strides.specs.Cheapest.{fixed, variable};
ghost use Rattle.table.specs.Answers.{Told};
ghost use Rattle.gateway.specs.Numbers.{choice_numbers};
ghost use Rattle.gateway.specs.Allowed.{ExactChoice, AllowedChoice};

use gateway::{ChosenNumbers, Kind};
use table::Entries;

// The least cost of one stride a level, with at most `levels` levels, and those strides: tests 1 to 6. Accepted, all of scratch
// is 0; refused, cost and strides are 0 and scratch is as it was. No other list changes.
#[unsafe(no_mangle)]
pub extern "C" fn hongsamuk_choose_fixed(
    width: u32,
    levels: u32,
    links: u16,
    value: &[u32],
    length: &[u8],
    hop: &[u16],
    scratch: &mut [u64],
) -> ChosenNumbers
    ensures exact { Told
        (ExactChoice fixed width levels links value.now length.now hop.now scratch.old scratch.new)
        choice_numbers result }
    ensures meaning { Told
        (AllowedChoice fixed width levels links value.now length.now hop.now scratch.old scratch.new)
        choice_numbers result }
{
    let entries = Entries { value, length, hop };
    gateway::hongsamuk_choose(Kind::Fixed, width, levels, links, entries, scratch)
}

// The same for one stride a block: only the root's is named.
#[unsafe(no_mangle)]
pub extern "C" fn hongsamuk_choose_variable(
    width: u32,
    levels: u32,
    links: u16,
    value: &[u32],
    length: &[u8],
    hop: &[u16],
    scratch: &mut [u64],
) -> ChosenNumbers
    ensures exact { Told
        (ExactChoice variable width levels links value.now length.now hop.now scratch.old scratch.new)
        choice_numbers result }
    ensures meaning { Told
        (AllowedChoice variable width levels links value.now length.now hop.now scratch.old scratch.new)
        choice_numbers result }
{
    let entries = Entries { value, length, hop };
    gateway::hongsamuk_choose(Kind::Variable, width, levels, links, entries, scratch)
}
