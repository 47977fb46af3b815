// The tablet's run (01, "The tablet program"), as one total function from bytes to bytes: the text is read, run and printed.
//
// The text is read by `reading`. A good sheet is built over scratch and elements of the call's own, every address is tested, and
// each is looked up. The report is printed to a page that is long enough for any, and handed over whole or not at all. Nothing is
// allocated: scratch, elements and page stand on the stack.
#![tactic(auto)]

mod answering;
mod limits;
mod printing;
mod running;
mod solving;
mod values;

pub use limits::PAGE;
pub use running::{NoRoom, buffer, run, run_page};
