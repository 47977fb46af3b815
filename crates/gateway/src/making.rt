// The builds for C (01, "The element rows").
ghost use Rattle.std.specs.Prelude.{◌≡◌};
ghost use Rattle.table.specs.Answers.{Told};
ghost use Rattle.choosers.specs.Kinds.{kind_of};
ghost use Rattle.walk.specs.Lent.{held, SameLists};
ghost use Rattle.gateway.specs.Numbers.{build_numbers};
ghost use Rattle.gateway.specs.Allowed.{ExactBuild, AllowedBuild};

use table::{Entries, Refusal};
use tries::Kind;
use walk::{Record, RowsMut};

// What C reads of a build. Those of a tree bitmap and of rules differ in the record alone, and are structs of their own: the signature of
// an exported call may have no struct with type arguments.
#[derive(Clone, Copy)]
#[repr(C)]
pub struct BuiltNumbers {
    pub number: u32,
    pub detail: u64,
    pub record: Record,
}

#[tactic(auto, unfolding(table::specs::Refusals::outcome_of, table::specs::Lists::padded))]
impl From<Result<Record, Refusal>> for BuiltNumbers {
    ghost from_gives = { λ built numbers. numbers ≡ build_numbers built };

    fn from(built: Result<Record, Refusal>) -> BuiltNumbers {
        match built {
            Ok(record) => BuiltNumbers {
                number: 0,
                detail: 0,
                record,
            },
            Err(refusal) => BuiltNumbers {
                number: refusal.number(),
                detail: refusal.detail(),
                record: Record::default(),
            },
        }
    }
}

// Turns a table into a record and element rows with the least number E of rows, one stride a level or one a block (the record then names
// the root's only): tests 1 to 7. Accepted, all of scratch is 0 and rows 0 to E - 1 are written. Refused, the record is 0 and no element
// changes; scratch is 0 after 7, else kept.
pub fn hongsamuk_build(
    kind: Kind,
    width: u32,
    levels: u32,
    links: u16,
    entries: Entries,
    scratch: &mut [u64],
    rows: &mut RowsMut,
) -> BuiltNumbers
    ensures same { SameLists rows.old rows.new }
    ensures exact { Told
        (ExactBuild (kind_of kind) width levels links
        entries.entry.value.now entries.entry.length.now entries.entry.hop.now scratch.old (held rows.old) scratch.new (held rows.new))
        build_numbers result }
    ensures meaning { Told
        (AllowedBuild (kind_of kind) width levels links
        entries.entry.value.now entries.entry.length.now entries.entry.hop.now scratch.old (held rows.old) scratch.new (held rows.new))
        build_numbers result }
{
    let built = tries::build(kind, width, levels, links, entries, scratch, rows);
    BuiltNumbers::from(built)
}
