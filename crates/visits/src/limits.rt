// The numbers of a supernode, named once. pieces' `Maps.antt` has the same ones for the promises.

// Its levels: the bits of the address that it takes.
pub const STEP: u32 = 4;

// Its own places, and its branches: one for each path of so many bits.
pub const INTERNAL: usize = 15;

pub const EXTERNAL: usize = 16;
