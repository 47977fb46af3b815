// The lookup of document 01, "The element rows": the floor is the first best; at each block one row is read and counted, a nonzero hop
// is the new best, with the length beside it (02, [5]), a nonzero link is followed. The tests that read no row stand in a function of
// their own, and the root's stride 0 is a case of its own, so that little comes before the loop over the rows.
ghost use Rattle.std.specs.Prelude.{◌≡◌, ◌≤◌};
ghost use Rattle.walk.specs.Limits.{WIDTH};
ghost use Rattle.walk.specs.Rows.{shortest, row_at};
ghost use Rattle.walk.specs.Lent.{lent};
ghost use Rattle.table.specs.Answers.{Told};
ghost use Rattle.walk.specs.Answers.{floor_best, answer, answer_numbers, answer_of};
ghost use Rattle.walk.specs.Told.{case_of, said, said_number, numbers_of, tested_number};
ghost use Rattle.walk.specs.Lookup.{walk, first_refusal, lookup_of};
ghost use Rattle.walk.specs.Meaning.{Looked};
ghost use Rattle.walk.specs.Packed.{IsPacked, unpacked, best_with};

use crate::address::{cut, is_beyond};
use crate::limits::{HOPS, LEVELS};
use crate::numbers::{AnswerNumbers, Found, LookupRefusal};
use crate::record::Record;
use crate::rows::Rows;
use table::{DISCARD, WIDTH, is_outside};

#[derive(Clone, Copy, Debug, PartialEq, Eq)]
pub enum Answer {
    Match { hop: u16, length: u8, reads: u32 },
    Discard { length: u8, reads: u32 },
    NoRoute { reads: u32 },
}

// Hop 0 is no route, DISCARD a discard, every other a match.
#[tactic(auto, unfolding(crate::specs::Answers::answer))]
impl From<Found> for Answer {
    ghost from_gives = { λ found a. case_of a ≡ answer found.hop found.length found.reads };

    fn from(found: Found) -> Answer {
        let Found { hop, length, reads } = found;
        match hop {
            0 => Answer::NoRoute { reads },
            DISCARD => Answer::Discard { length, reads },
            _ => Answer::Match { hop, length, reads },
        }
    }
}

// The answer that numbers say, whatever numbers they are: a number that is not 0 is a refusal. (Its error is the number: numbers may hold
// any, and not a lookup's four alone.)
#[tactic(auto, unfolding(crate::specs::Answers::answer_of))]
pub fn answer_of(numbers: AnswerNumbers) -> Result<Answer, u32>
    ensures { said_number result ≡ answer_of numbers }
{
    let AnswerNumbers {
        number,
        hop,
        length,
        reads,
    } = numbers;
    if number != 0 {
        return Err(number);
    }
    Ok(Answer::from(Found { hop, length, reads }))
}

// A nonzero hop is the new best, with the length beside it.
fn packed_after(hop: u16, len: u8, best: u32) -> u32
    requires { IsPacked best }
    ensures packed { IsPacked result }
    ensures best { unpacked result ≡ best_with hop len (unpacked best) }
{
    if hop == 0 {
        best
    } else {
        u32::from(hop) + u32::from(len) * HOPS
    }
}

// The rows from the root's block on, whose stride is `root`: at most `levels` blocks, over rows below `elements`. Row numbers
// are summed in usize, so that a link and an index do not wrap.
fn follow(rec: Record, root: u8, rows: Rows, address: u32) -> Result<Found, LookupRefusal>
    requires { (rec.elements ≤ shortest (lent rows)) × (rec.width ≤ WIDTH) }
    ensures { numbers_of result ≡ answer_numbers
        (walk rec.elements address (row_at (lent rows.entry)) rec.levels 0 root rec.width (floor_best rec.floor) 0) }
{
    let Rows {
        hop,
        length,
        link,
        stride,
    } = rows;
    let elements = rec.elements as usize;
    let mut base: usize = 0;
    let mut s = u32::from(root);
    let mut left = rec.width;
    let mut best = u32::from(rec.floor);
    for read in 0..rec.levels {
        if s == 0 || left < s {
            return Err(LookupRefusal::Damage);
        }
        left -= s;
        let row = base + cut(address, left, s);
        if elements <= row {
            return Err(LookupRefusal::Damage);
        }
        best = packed_after(hop[row], length[row], best);
        let next = link[row];
        if next == 0 {
            return Ok(Found::unpacked(best, read + 1));
        }
        base = next as usize;
        s = u32::from(stride[row]);
    }
    Err(LookupRefusal::Damage)
}

// The first test that fails before the root's stride is looked at, in the order 1, 2, 8, 9.
#[tactic(auto, unfolding(crate::specs::Lookup::first_refusal))]
fn tested(rec: Record, rows: usize, address: u32) -> Result<(), LookupRefusal>
    ensures { tested_number result ≡ first_refusal WIDTH rec rows address }
{
    if is_outside(rec.width, WIDTH) {
        return Err(LookupRefusal::Width);
    }
    if is_outside(rec.levels, LEVELS) {
        return Err(LookupRefusal::Levels);
    }
    if is_beyond(address, rec.width) {
        return Err(LookupRefusal::Address);
    }
    if rows < rec.elements as usize {
        return Err(LookupRefusal::Damage);
    }
    Ok(())
}

// One lookup, over any record and any lists: hop, length and reads; or a refusal, 1 (width), 2 (levels), 8
// (address) or 9 (damaged record or rows). No list changes.
pub fn find(rec: Record, rows: Rows, address: u32) -> Result<Found, LookupRefusal>
    ensures exact { numbers_of result ≡ answer_numbers (lookup_of WIDTH rec (lent rows.entry) address) }
    ensures meaning { Told (Looked WIDTH rec (lent rows.entry) address) answer_numbers (numbers_of result) }
{
    tested(rec, rows.len(), address)?;
    // The root's stride 0 is a case of its own, so that no other lookup works it out.
    if rec.strides[0] == 0 {
        if rec.elements == 0 {
            return Ok(Found {
                hop: rec.floor,
                length: 0,
                reads: 0,
            });
        }
        return Err(LookupRefusal::Damage);
    }
    follow(rec, rec.strides[0], rows, address)
}

// The same as an answer: a match, a discard or no route, or the same refusal. No list changes.
#[tactic(auto, using(table::proofs::Refusals::handed_on))]
pub fn lookup(rec: Record, rows: Rows, address: u32) -> Result<Answer, LookupRefusal>
    ensures exact { said result ≡ lookup_of WIDTH rec (lent rows.entry) address }
    ensures meaning { Looked WIDTH rec (lent rows.entry) address (said result) }
{
    let found = find(rec, rows, address)?;
    Ok(Answer::from(found))
}
