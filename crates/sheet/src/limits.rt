// The numbers of the report and of what the program lends, named once. `specs/Limits.antt` has the promises'; those of the text are
// reading's.

// No number of 64 bits has more decimal digits; `reading/specs/Limits.antt` has it for the promises, with the text's.
pub(crate) const DECIMAL_DIGITS: usize = 20;

// The number of the refusal of a bad text (01, "Refusals, in order of test"): none of `table::Refusal`'s, as no call about a table refuses
// so. `text_report` of `specs/Tablet.antt` has it for the promises.
pub(crate) const BAD_TEXT: u64 = 11;

// The bytes of the page that a text is read to, or a report printed to.
pub const PAGE: usize = 8192;

// What the program lends to a build, from the stack (there is no heap below the program): scratch rows, and elements.
pub(crate) const LENT_ROWS: usize = 112;

pub(crate) const LENT_ELEMENTS: usize = 8192;
