// The lookup: the record that a build hands back, element rows in lent lists, and the walk over them. It reads what any
// builder wrote and any damage besides, so it stands apart from the builders and sees the table's rules only.
#![tactic(auto)]

mod address;
mod limits;
mod numbers;
mod record;
mod rows;
mod walk;

pub use address::is_beyond;
pub use limits::LEVELS;
pub use numbers::{AnswerNumbers, Found, LookupRefusal, hop_numbers, refusal_numbers};
pub use record::Record;
pub use rows::{Rows, RowsMut};
pub use walk::{Answer, answer_of, find, lookup};
