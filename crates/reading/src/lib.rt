// The tablet's text, read (01, "The tablet program"): what its sheet says, or its first bad line.
//
// The text is read line by line into lists; the first bad line ends the reading. Nothing is built or printed here.
#![tactic(auto)]

mod entries;
mod limits;
mod lines;
mod parsing;

pub use limits::COUNT;
pub use lines::BadLine;
pub use parsing::{Contents, read};
