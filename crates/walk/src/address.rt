// The only place that knows in which word an address is held: test 8, and the cut of a stride's bits
// by shift and mask. Both go through 64 bits, so that width 32 and stride 32 are no special case.
ghost use Rattle.std.specs.Prelude.{◌≡◌, ◌/◌, ◌%◌, ◌^◌, ◌≤◌, leb};
ghost use Rattle.walk.specs.Limits.{WIDTH};

use table::WIDTH;

// Test 8: whether the address is not below 2 ^ width. Every address is below where the width is its word's or more.
pub fn is_beyond(address: u32, width: u32) -> bool
    ensures { result ≡ leb (2 ^ width) address }
{
    if WIDTH < width {
        return false;
    }
    1u64 << width <= u64::from(address)
}

// The s bits of the address that stand above its lowest `rest` bits. (Casts: no `From` makes a usize of a u32.)
pub(crate) fn cut(address: u32, rest: u32, s: u32) -> usize
    requires { (rest ≤ WIDTH) × (s ≤ WIDTH) }
    ensures { result ≡ address / 2 ^ rest % 2 ^ s }
{
    let mask = (1usize << s) - 1;
    ((address as usize) >> rest) & mask
}
