// What the vector programs share: room for a run's text and lists; the reading of a text, of decimal numbers, of the word that begins a
// line, of a table's line and of rows for the element lists; the making of a table of rising entries; and the count of marks laid in a
// lent list before a call. Between two numbers any other bytes may stand, so that a case's line can say what its numbers mean.
#![tactic(auto)]

mod elements;
mod fronts;
mod limits;
mod lists;
mod marks;
mod numbers;
mod rising;
mod room;
mod tables;
mod text;

pub use elements::{ElementRows, FourLengths};
pub use fronts::{front, front_mut};
pub use limits::{HOP_ROWS, LIST, PLACES, ROWS, SCRATCH, SUPERNODES, TEXT};
pub use marks::count;
pub use numbers::Number;
pub use rising::is_bad_rising;
pub use room::{
    firsts, hop_rows, hops, lengths, list_of_tries, maps, page, row_hops, row_lengths, row_links,
    row_strides, scratch, values,
};
pub use tables::{Held, Table, is_bad_table};
pub use text::Text;
