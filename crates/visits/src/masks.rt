// What one supernode's maps say to a path of four bits: the internal bits on it, the highest of them, the count of ones before a place.
// Maps hold place i as bit i, so the longest match is the highest bit, and what stands before a place are the bits below it.
// A lookup's time goes here: each is a few shifts, masks and counts, without a loop.
ghost use Rattle.std.specs.Prelude.{◌≡◌, ℕ, ◌-◌, ◌^◌, ◌<◌, ◌≤◌};
ghost use Rattle.pieces.specs.Maps.{EXTERNAL, INTERNAL, MasksAre, mask_of, bit_at, place_level};
ghost use Rattle.pieces.specs.Cuts.{path_at, limit, found, ones_before, highest};
ghost use Rattle.walk.specs.Limits.{WIDTH};

use crate::limits::EXTERNAL;

// For each 4-bit path the internal places on it.
const MASKS: [u16; EXTERNAL] = [
    139, // 0000
    139, // 0001
    267, // 0010
    267, // 0011
    531, // 0100
    531, // 0101
    1043, // 0110
    1043, // 0111
    2085, // 1000
    2085, // 1001
    4133, // 1010
    4133, // 1011
    8261, // 1100
    8261, // 1101
    16453, // 1110
    16453, // 1111
];

pub(crate) fn masks() -> [u16; EXTERNAL]
    ensures { MasksAre result }
{
    MASKS
}

// The next four bits of the address, those past the width 0.
#[tactic(auto, using(crate::proofs::Masked::path_is))]
pub(crate) fn path_at(address: u32, left: u32) -> usize
    requires { left ≤ WIDTH }
    ensures value { result ≡ path_at address left }
    ensures upper_bound { result < EXTERNAL }
{
    (address as usize * EXTERNAL >> left) % EXTERNAL
}

// The internal places whose level is within the width, as bits.
#[tactic(auto, using(crate::proofs::Masked::within_0, crate::proofs::Masked::within_1, crate::proofs::Masked::within_2, crate::proofs::Masked::within_more))]
fn within(left: u32) -> u16
    ensures { result ≡ 2 ^ limit left - 1 }
{
    match left {
        0 => 1,
        1 => 7,
        2 => 127,
        _ => 32767,
    }
}

// The internal bits on the path, none of a length above the width.
#[tactic(auto, using(crate::proofs::Masked::found_on))]
pub(crate) fn found_on(map: u16, mask: u16, left: u32) -> u16
    ensures by_index { (p : ℕ) → mask ≡ mask_of p → result ≡ found map p left }
    ensures upper_bound { result < 2 ^ limit left }
{
    map & mask & within(left)
}

// The place of the highest bit.
#[tactic(auto, using(crate::proofs::Masked::leading_highest, crate::proofs::Masked::highest_lead))]
pub(crate) fn highest_of(on: u32) -> usize
    requires { (0 < on) × (on < 2 ^ INTERNAL) }
    ensures value { result ≡ highest INTERNAL on }
    ensures upper_bound { result < INTERNAL }
{
    (31 - u32::leading_zeros(on)) as usize
}

// The level of a place: 2 ^ j - 1 places come before level j, so it is the highest bit of the place's number counted from 1.
#[tactic(auto, using(crate::proofs::Masked::highest_level))]
pub(crate) fn level_of(i: usize) -> u32
    requires { i < INTERNAL }
    ensures { result ≡ place_level i }
{
    highest_of(i as u32 + 1) as u32
}

#[tactic(auto, using(crate::proofs::Masked::shl_some, crate::proofs::Masked::before_is))]
pub(crate) fn ones_before(map: u16, i: usize) -> u32
    requires { i < EXTERNAL }
    ensures value { result ≡ ones_before map i }
    ensures upper_bound { result ≤ EXTERNAL }
{
    u32::count_ones(u32::from(map) & ((1 << i) - 1))
}

#[tactic(auto, unfolding(pieces::specs::Maps::bit_at))]
pub(crate) fn is_set(map: u16, i: usize) -> bool
    requires { i < EXTERNAL }
    ensures { result ≡ bit_at map i }
{
    (map >> i) % 2 == 1
}
