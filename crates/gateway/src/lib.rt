// The calls for C, which `gateway_c` exports: the table check, the two answers about entries, the choosers, the builds and the lookup, a
// lookup of many addresses in one call, build and lookup of tree bitmap arrays, and the builds and the classification of rules of two
// fields. Each is thin over the crates below, takes any numbers and any lists, and hands its answer back as a struct of plain numbers: 0
// for accepted or the refusal, its detail, then the values, which are 0 where it is refused.
#![tactic(auto)]

mod bitmaps;
mod choosing;
mod entries;
mod looking;
mod making;
mod ruling;

pub use bitmaps::{BuiltBitmapNumbers, hongsamuk_build_bitmap, hongsamuk_lookup_bitmap};
pub use choosing::{ChosenNumbers, hongsamuk_choose};
pub use entries::{
    Checked, SharedNumbers, SpanNumbers, hongsamuk_check, hongsamuk_shared_length,
    hongsamuk_zone_span,
};
pub use looking::{AnswerLists, hongsamuk_lookup, hongsamuk_lookup_batch};
pub use making::{BuiltNumbers, hongsamuk_build};
pub use ruling::{BuiltRulesNumbers, VerdictNumbers, hongsamuk_build_rules, hongsamuk_classify};
pub use tries::Kind;
