// The limit of the build, named once (`specs/Limits.antt` has the same one for the promises). Those of scratch and strides are the
// choosers'.

// The most element rows.
pub const ELEMENTS: u32 = 16777216;
