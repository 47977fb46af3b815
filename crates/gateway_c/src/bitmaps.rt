// Tree bitmap arrays for C (02 [1]): the build and the lookup.
ghost use Rattle.std.specs.Prelude.{◌≡◌};
ghost use Rattle.walk.specs.Limits.{WIDTH};
ghost use Rattle.visits.specs.Rows.{row_lists};
ghost use Rattle.visits.specs.Lookup.{lookup_bitmap_of};
ghost use Rattle.visits.specs.Meaning.{LookedBitmap};
ghost use Rattle.table.specs.Answers.{Told};
ghost use Rattle.walk.specs.Answers.{answer_numbers};
ghost use Rattle.gateway.specs.Numbers.{bitmap_numbers};
ghost use Rattle.gateway.specs.Allowed.{ExactBitmap, AllowedBitmap};

use gateway::BuiltBitmapNumbers;
use table::Entries;
use visits::{Bitmap, Supernodes, SupernodesMut};
use walk::AnswerNumbers;

// Turns a table into a record, rows of supernodes and their hops: tests 1, 3 to 6, then 7 for rows and 7 for hops. Accepted, all of
// scratch is 0 and the rows and hops that the record counts are written. Refused, the record is 0 and no row or hop changes; scratch is
// 0 after 7, else kept.
#[unsafe(no_mangle)]
pub extern "C" fn hongsamuk_build_bitmap(
    width: u32,
    links: u16,
    value: &[u32],
    length: &[u8],
    hop: &[u16],
    scratch: &mut [u64],
    internal: &mut [u16],
    external: &mut [u16],
    child: &mut [u32],
    first: &mut [u32],
    hops: &mut [u16],
) -> BuiltBitmapNumbers
    ensures exact { Told
        (ExactBitmap width links value.now length.now hop.now scratch.old
        (row_lists internal.old external.old child.old first.old) hops.old scratch.new
        (row_lists internal.new external.new child.new first.new) hops.new) bitmap_numbers result }
    ensures meaning { Told
        (AllowedBitmap width links value.now length.now hop.now scratch.old
        (row_lists internal.old external.old child.old first.old) hops.old scratch.new
        (row_lists internal.new external.new child.new first.new) hops.new) bitmap_numbers result }
{
    let entries = Entries { value, length, hop };
    let mut rows = SupernodesMut {
        internal,
        external,
        child,
        first,
        hops,
    };
    gateway::hongsamuk_build_bitmap(width, links, entries, scratch, &mut rows)
}

// Looks the address up in rows of supernodes: tests 1, 8, 9. Over the record and lists that one accepted build left together it is the
// hop and the length of the longest prefix that begins the address, a discard's too, or none. No list changes.
#[unsafe(no_mangle)]
pub extern "C" fn hongsamuk_lookup_bitmap(
    rec: Bitmap,
    internal: &[u16],
    external: &[u16],
    child: &[u32],
    first: &[u32],
    hops: &[u16],
    address: u32,
) -> AnswerNumbers
    ensures exact { result ≡ answer_numbers (lookup_bitmap_of WIDTH rec
        (row_lists internal.now external.now child.now first.now) hops.now address) }
    ensures meaning { Told (LookedBitmap WIDTH rec
        (row_lists internal.now external.now child.now first.now) hops.now address)
        answer_numbers result }
{
    let rows = Supernodes {
        internal,
        external,
        child,
        first,
        hops,
    };
    gateway::hongsamuk_lookup_bitmap(rec, rows, address)
}
