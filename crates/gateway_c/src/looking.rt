// The lookup for C, one address or many (01, "The element rows").
ghost use Rattle.std.specs.Prelude.{◌≡◌};
ghost use Rattle.walk.specs.Limits.{WIDTH};
ghost use Rattle.walk.specs.Rows.{lists};
ghost use Rattle.walk.specs.Lookup.{lookup_of};
ghost use Rattle.walk.specs.Meaning.{Looked};
ghost use Rattle.table.specs.Answers.{Told};
ghost use Rattle.walk.specs.Answers.{answer_numbers};
ghost use Rattle.gateway.specs.Batch.{columns, ExactAnswer, Answered};

use gateway::AnswerLists;
use walk::{AnswerNumbers, Record, Rows};

// Looks the address up: tests 1, 2, 8, 9. Over the record and lists that one accepted build left together it is the hop and the
// length of the longest prefix that begins the address, a discard's too, or none. No list changes.
#[unsafe(no_mangle)]
pub extern "C" fn hongsamuk_lookup(
    rec: Record,
    rowhops: &[u16],
    rowlens: &[u8],
    rowlinks: &[u32],
    rowstrides: &[u8],
    address: u32,
) -> AnswerNumbers
    ensures exact { result ≡ answer_numbers
        (lookup_of WIDTH rec (lists rowhops.now rowlens.now rowlinks.now rowstrides.now) address) }
    ensures meaning { Told (Looked WIDTH rec (lists rowhops.now rowlens.now rowlinks.now rowstrides.now) address)
        answer_numbers result }
{
    let rows = Rows {
        hop: rowhops,
        length: rowlens,
        link: rowlinks,
        stride: rowstrides,
    };
    gateway::hongsamuk_lookup(rec, rows, address)
}

// Lookups one after the other: as many as the shortest of the address list and the four answer lists has. Number, hop, length and
// reads of each are written at its index, later places are kept, and the answer is how many. No other list changes.
#[unsafe(no_mangle)]
pub extern "C" fn hongsamuk_lookup_batch(
    rec: Record,
    rowhops: &[u16],
    rowlens: &[u8],
    rowlinks: &[u32],
    rowstrides: &[u8],
    address: &[u32],
    number: &mut [u32],
    hop: &mut [u16],
    len: &mut [u8],
    reads: &mut [u32],
) -> usize
    ensures exact { Answered (ExactAnswer rec (lists rowhops.now rowlens.now rowlinks.now rowstrides.now))
        address.now
        (columns number.old hop.old len.old reads.old)
        (columns number.new hop.new len.new reads.new) result }
    ensures meaning { Answered (Looked WIDTH rec (lists rowhops.now rowlens.now rowlinks.now rowstrides.now))
        address.now
        (columns number.old hop.old len.old reads.old)
        (columns number.new hop.new len.new reads.new) result }
{
    let rows = Rows {
        hop: rowhops,
        length: rowlens,
        link: rowlinks,
        stride: rowstrides,
    };
    let mut answers = AnswerLists {
        number,
        hop,
        length: len,
        reads,
    };
    gateway::hongsamuk_lookup_batch(rec, rows, address, &mut answers)
}
