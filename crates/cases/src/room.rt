// Room for the text of a run and for the lists that its calls are lent, on the stack. Each promise gives only
// the length, which lending the array as a slice needs.
ghost use Rattle.std.specs.Prelude.{◌≡◌, length};
ghost use Rattle.cases.specs.Limits.{TEXT, PLACES, SCRATCH, ROWS, SUPERNODES, hop_row_count, LIST};

use crate::limits::{HOP_ROWS, LIST, PLACES, ROWS, SCRATCH, SUPERNODES, TEXT};

// The text of all cases.
pub fn page() -> [u8; TEXT]
    ensures { TEXT ≡ length result }
{
    [0u8; TEXT]
}

// A table's three lists.
pub fn values() -> [u32; PLACES]
    ensures { PLACES ≡ length result }
{
    [0u32; PLACES]
}

pub fn lengths() -> [u8; PLACES]
    ensures { PLACES ≡ length result }
{
    [0u8; PLACES]
}

pub fn hops() -> [u16; PLACES]
    ensures { PLACES ≡ length result }
{
    [0u16; PLACES]
}

// Scratch.
pub fn scratch() -> [u64; SCRATCH]
    ensures { SCRATCH ≡ length result }
{
    [0u64; SCRATCH]
}

// The four element lists.
pub fn row_hops() -> [u16; ROWS]
    ensures { ROWS ≡ length result }
{
    [0u16; ROWS]
}

pub fn row_lengths() -> [u8; ROWS]
    ensures { ROWS ≡ length result }
{
    [0u8; ROWS]
}

pub fn row_links() -> [u32; ROWS]
    ensures { ROWS ≡ length result }
{
    [0u32; ROWS]
}

pub fn row_strides() -> [u8; ROWS]
    ensures { ROWS ≡ length result }
{
    [0u8; ROWS]
}

// A list of supernode rows: of maps (internal, external), or of numbers (first child, first hop).
pub fn maps() -> [u16; SUPERNODES]
    ensures { SUPERNODES ≡ length result }
{
    [0u16; SUPERNODES]
}

pub fn firsts() -> [u32; SUPERNODES]
    ensures { SUPERNODES ≡ length result }
{
    [0u32; SUPERNODES]
}

// The hops of supernodes.
pub fn hop_rows() -> [u16; HOP_ROWS]
    ensures { hop_row_count ≡ length result }
{
    [0u16; HOP_ROWS]
}

// The list of tries of a build of rules.
pub fn list_of_tries() -> [u32; LIST]
    ensures { LIST ≡ length result }
{
    [0u32; LIST]
}
