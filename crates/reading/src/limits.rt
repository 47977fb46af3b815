// The numbers of the tablet's text (01, "The tablet program"), named once. `specs/Limits.antt` has the same ones for the promises, but
// for the length of the kind's key, which is there as the key itself.

// The most entries, and the most queries.
pub const COUNT: u64 = 64;

// The most digits of a number.
pub(crate) const NUMBER_DIGITS: u32 = 5;

// The largest number of so many digits: a width or a level limit of the text.
pub(crate) const NUMBER: u64 = 99999;

// The largest hop, and the largest number of links, that the text takes: the largest number of 16 bits.
pub(crate) const SHORT: u64 = 65535;

// The most binary digits of an entry's bits, and of an address.
pub(crate) const BITS: u32 = 32;

// The bytes of `kind=fst`, and of `kind=vst`.
pub(crate) const KIND_KEY: usize = 8;
