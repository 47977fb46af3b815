// The calls for C over the library gateway: each has its clauses and calls it. (C has a name for each kind: those are exported, and stay.)
#![tactic(auto)]

mod bitmaps;
mod choosing;
mod entries;
mod looking;
mod making;
mod ruling;

pub use bitmaps::{hongsamuk_build_bitmap, hongsamuk_lookup_bitmap};
pub use choosing::{hongsamuk_choose_fixed, hongsamuk_choose_variable};
pub use entries::{hongsamuk_check, hongsamuk_shared_length, hongsamuk_zone_span};
pub use looking::{hongsamuk_lookup, hongsamuk_lookup_batch};
pub use making::{hongsamuk_build_fixed, hongsamuk_build_variable};
pub use ruling::{hongsamuk_build_rules_fixed, hongsamuk_build_rules_variable, hongsamuk_classify};
