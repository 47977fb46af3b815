// Rules of two fields (02, [6]): a destination prefix, a source prefix and an action.
//
// Rules are five lent lists of equal length. The one call takes any lists at all and refuses what are no rules.
// Which rule wins, the runs of rules with one destination and the tables that tries are built of are defined in `specs/`.
#![tactic(auto)]

mod checking;
mod limits;

pub use checking::{RuleLists, check_rules};
pub use limits::RULES;
