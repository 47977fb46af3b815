// The build of rules of two fields (02, [6]): the distinct destinations make one trie, whose hops are the numbers of source tries; each
// source trie is an ordinary build in the lists from its place on, with a row in the list of tries. The one call takes any lists.
#![tactic(auto)]

mod building;
mod counting;
mod grouping;
mod laying;
mod linking;
mod split;

pub use building::build_rules;
