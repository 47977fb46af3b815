// The lookup over supernodes (02 [1]): of each one row is read; the longest match inside it is the new best, and the branch is followed
// where its external bit is set. Only the last winner's hop is read; its length is the bits of the address before it (02, [5]).
ghost use Rattle.std.specs.Prelude.{◌≡◌, ℕ, None, suc, ◌/◌, ◌≤◌, length};
ghost use Rattle.table.specs.Table.{at};
ghost use Rattle.walk.specs.Limits.{WIDTH};
ghost use Rattle.table.specs.Answers.{Told};
ghost use Rattle.walk.specs.Answers.{answer, answer_numbers};
ghost use Rattle.walk.specs.Told.{found_numbers, numbers_of, said, tested_number};
ghost use Rattle.pieces.specs.Maps.{STEP, mask_of};
ghost use Rattle.visits.specs.Rows.{row_room, supernode_at};
ghost use Rattle.visits.specs.Lent.{lent};
ghost use Rattle.visits.specs.Lookup.{better_of, LeftWithin, tell_best, visit_from, bitmap_refusal, lookup_bitmap_of};
ghost use Rattle.visits.specs.Meaning.{LookedBitmap};

use crate::limits::STEP;
use crate::masks::{found_on, highest_of, is_set, level_of, masks, ones_before, path_at};
use crate::record::Bitmap;
use crate::rows::Supernodes;
use table::{WIDTH, is_outside};
use walk::{Answer, Found, LookupRefusal, is_beyond};

// The longest match on the way: the number of its hop, and the address bits left behind it.
#[derive(Clone, Copy, Debug, PartialEq, Eq)]
pub struct Winner {
    pub place: usize,
    pub left: u32,
}

// The best after one supernode, `left` address bits being left there: `mask` has the places on the path. (A cast of
// `on`: with `u32::from` the proof did not close.)
#[tactic(auto, using(crate::proofs::Masked::level_within, crate::proofs::Masked::highest_within, crate::proofs::Visiting::better_old, crate::proofs::Visiting::better_new))]
fn better(map: u16, first: u32, mask: u16, left: u32, best: Option<Winner>) -> Option<Winner>
    ensures { (p : ℕ) → mask ≡ mask_of p → result ≡ better_of map first p left best }
{
    let on = found_on(map, mask, left);
    if on == 0 {
        return best;
    }
    let i = highest_of(on as u32);
    Some(Winner {
        place: first as usize + ones_before(map, i) as usize,
        left: left - level_of(i),
    })
}

// The hop of a winner and its length, which are the bits of the address that are not left behind it; no route has none.
fn found_hop(hop: u16, length: u8, reads: u32) -> Found
    ensures { found_numbers result ≡ answer_numbers (answer hop length reads) }
{
    Found {
        hop,
        length: if hop == 0 { 0 } else { length },
        reads,
    }
}

// What the best says: its hop's number is below the record's count, or that is damage.
#[tactic(auto, unfolding(crate::specs::Lookup::tell_best))]
fn found_by(
    best: Option<Winner>,
    rec: Bitmap,
    reads: u32,
    hops: &[u16],
) -> Result<Found, LookupRefusal>
    requires { (rec.width ≤ WIDTH) × LeftWithin best rec.width × (rec.hops ≤ length hops.now) }
    ensures { numbers_of result ≡ answer_numbers (tell_best rec.width rec.hops (at hops.now) best reads) }
{
    match best {
        None => Ok(found_hop(0, 0, reads)),
        Some(Winner { place, left }) => {
            if rec.hops as usize <= place {
                return Err(LookupRefusal::Damage);
            }
            Ok(found_hop(hops[place], (rec.width - left) as u8, reads))
        }
    }
}

// The supernodes from number 0 on. The masks stand before the loop, so that they are laid out once; a child's number is summed in usize,
// so that it does not wrap. The number goes from link to link, so there is no range to go over.
fn follow(rec: Bitmap, rows: Supernodes, address: u32) -> Result<Found, LookupRefusal>
    requires { (rec.width ≤ WIDTH) × (rec.supernodes ≤ row_room (lent rows)) × (rec.hops ≤ length rows.hops.now) }
    ensures { numbers_of result ≡ answer_numbers (visit_from rec.width rec.supernodes rec.hops address
        (supernode_at (lent rows.entry)) (at rows.entry.hops.now) (suc (rec.width / STEP)) 0 rec.width None 0) }
{
    let Supernodes {
        internal,
        external,
        child,
        first,
        hops,
    } = rows;
    let table = masks();
    let mut i: usize = 0;
    let mut left = rec.width;
    let mut best = None;
    let mut reads: u32 = 0;
    while i < rec.supernodes as usize {
        let p = path_at(address, left);
        best = better(internal[i], first[i], table[p], left, best);
        reads += 1;
        let map = external[i];
        if !is_set(map, p) {
            return found_by(best, rec, reads, hops);
        }
        if left < STEP {
            return Err(LookupRefusal::Damage);
        }
        left -= STEP;
        i = child[i] as usize + ones_before(map, p) as usize;
    }
    Err(LookupRefusal::Damage)
}

// The first test that fails before a row is read, in the order 1, 8, 9: so many rows and hops are lent.
#[tactic(auto, unfolding(crate::specs::Lookup::bitmap_refusal, crate::specs::Lookup::lists_short))]
fn tested(rec: Bitmap, rows: usize, hops: usize, address: u32) -> Result<(), LookupRefusal>
    ensures { tested_number result ≡ bitmap_refusal WIDTH rec rows hops address }
{
    if is_outside(rec.width, WIDTH) {
        return Err(LookupRefusal::Width);
    }
    if is_beyond(address, rec.width) {
        return Err(LookupRefusal::Address);
    }
    if rows < rec.supernodes as usize || hops < rec.hops as usize {
        return Err(LookupRefusal::Damage);
    }
    Ok(())
}

// One lookup over supernodes, any record and any lists: hop, length and reads; or a refusal, 1 (width), 8 (address) or 9 (damaged
// record or rows). No list changes.
pub fn find_bitmap(rec: Bitmap, rows: Supernodes, address: u32) -> Result<Found, LookupRefusal>
    ensures exact { numbers_of result ≡ answer_numbers (lookup_bitmap_of WIDTH rec (lent rows.entry) rows.entry.hops.now address) }
    ensures meaning { Told (LookedBitmap WIDTH rec (lent rows.entry) rows.entry.hops.now address) answer_numbers (numbers_of result) }
{
    tested(rec, rows.len(), rows.hops.len(), address)?;
    if rec.supernodes == 0 {
        return Ok(found_hop(0, 0, 0));
    }
    follow(rec, rows, address)
}

// The same as an answer: a match, a discard or no route, or the same refusal. No list changes.
#[tactic(auto, using(table::proofs::Refusals::handed_on))]
pub fn lookup_bitmap(rec: Bitmap, rows: Supernodes, address: u32) -> Result<Answer, LookupRefusal>
    ensures exact { said result ≡ lookup_bitmap_of WIDTH rec (lent rows.entry) rows.entry.hops.now address }
    ensures meaning { LookedBitmap WIDTH rec (lent rows.entry) rows.entry.hops.now address (said result) }
{
    let found = find_bitmap(rec, rows, address)?;
    Ok(Answer::from(found))
}
