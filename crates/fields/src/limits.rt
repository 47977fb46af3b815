// The number that bounds rules. `specs/Limits.antt` has the same one for the promises.

// The most rules.
pub const RULES: usize = 1024;
