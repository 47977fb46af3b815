// The lookup of two fields (02, [6]): the destination trie gives the number of a source trie, and source tries are visited one after the
// other until one matches. It reads what any builder wrote and any damage besides, so it stands apart from the builder.
#![tactic(auto)]

mod classifying;
mod limits;
mod record;
mod tries;
mod verdict;

pub use classifying::classify;
pub use limits::{NEXT, OWN_ELEMENTS, PLACE, ROOT, TRIE_ROW};
pub use record::RuleRecord;
pub use tries::TrieRow;
pub use verdict::Verdict;
