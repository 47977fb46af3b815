// Tree bitmap arrays for C (02 [1]): the build and the lookup.
ghost use Rattle.std.specs.Prelude.{◌≡◌};
ghost use Rattle.table.specs.Answers.{Told};
ghost use Rattle.walk.specs.Limits.{WIDTH};
ghost use Rattle.walk.specs.Answers.{answer_numbers};
ghost use Rattle.visits.specs.Lent.{lent, held, SameSupernodes};
ghost use Rattle.visits.specs.Lookup.{lookup_bitmap_of};
ghost use Rattle.visits.specs.Meaning.{LookedBitmap};
ghost use Rattle.gateway.specs.Numbers.{bitmap_numbers};
ghost use Rattle.gateway.specs.Allowed.{ExactBitmap, AllowedBitmap};

use table::{Entries, Refusal};
use visits::{Bitmap, Supernodes, SupernodesMut};
use walk::AnswerNumbers;

#[derive(Clone, Copy)]
#[repr(C)]
pub struct BuiltBitmapNumbers {
    pub number: u32,
    pub detail: u64,
    pub record: Bitmap,
}

#[tactic(auto, unfolding(table::specs::Refusals::outcome_of))]
impl From<Result<Bitmap, Refusal>> for BuiltBitmapNumbers {
    ghost from_gives = { λ built numbers. numbers ≡ bitmap_numbers built };

    fn from(built: Result<Bitmap, Refusal>) -> BuiltBitmapNumbers {
        match built {
            Ok(record) => BuiltBitmapNumbers {
                number: 0,
                detail: 0,
                record,
            },
            Err(refusal) => BuiltBitmapNumbers {
                number: refusal.number(),
                detail: refusal.detail(),
                record: Bitmap::default(),
            },
        }
    }
}

// Turns a table into a record, rows of supernodes and their hops: tests 1, 3 to 6, then 7 for rows and 7 for hops. Accepted, all of
// scratch is 0 and the rows and hops that the record counts are written. Refused, the record is 0 and no row or hop changes; scratch is
// 0 after 7, else kept.
pub fn hongsamuk_build_bitmap(
    width: u32,
    links: u16,
    entries: Entries,
    scratch: &mut [u64],
    rows: &mut SupernodesMut,
) -> BuiltBitmapNumbers
    ensures same { SameSupernodes rows.old rows.new }
    ensures exact { Told
        (ExactBitmap width links entries.entry.value.now entries.entry.length.now entries.entry.hop.now scratch.old
        (held rows.old) rows.old.hops.now scratch.new (held rows.new) rows.new.hops.now)
        bitmap_numbers result }
    ensures meaning { Told
        (AllowedBitmap width links entries.entry.value.now entries.entry.length.now entries.entry.hop.now scratch.old
        (held rows.old) rows.old.hops.now scratch.new (held rows.new) rows.new.hops.now)
        bitmap_numbers result }
{
    let built = supernodes::build_bitmap(width, links, entries, scratch, rows);
    BuiltBitmapNumbers::from(built)
}

// Looks the address up in rows of supernodes: tests 1, 8, 9. Over the record and lists that one accepted build left together it is the
// hop and the length of the longest prefix that begins the address, a discard's too, or none. No list changes.
pub fn hongsamuk_lookup_bitmap(rec: Bitmap, rows: Supernodes, address: u32) -> AnswerNumbers
    ensures exact { result ≡ answer_numbers (lookup_bitmap_of WIDTH rec (lent rows.entry) rows.entry.hops.now address) }
    ensures meaning { Told (LookedBitmap WIDTH rec (lent rows.entry) rows.entry.hops.now address) answer_numbers result }
{
    AnswerNumbers::from(visits::find_bitmap(rec, rows, address))
}
