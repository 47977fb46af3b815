// The source tries: the rows of their list, the lookup in one, and the way through them until one matches (02, [6]).
ghost use Rattle.std.specs.Prelude.{◌≡◌, ◌+◌, ◌≤◌, cond, Ok, Err};
ghost use Rattle.walk.specs.Limits.{WIDTH, LEVELS};
ghost use Rattle.walk.specs.Lent.{lent};
ghost use Rattle.walk.specs.Answers.{answer_numbers};
ghost use Rattle.walk.specs.Told.{numbers_of};
ghost use Rattle.walk.specs.declared.numbers.LookupRefusal.TheVariants.{Damage};
ghost use Rattle.verdicts.specs.Limits.{VISITS};
ghost use Rattle.verdicts.specs.Tries.{trie_row};
ghost use Rattle.verdicts.specs.Classify.{visitable, lookup_in, through_tries};
ghost use Rattle.verdicts.specs.Visiting.{CanVisit};
ghost use Rattle.verdicts.specs.Verdicts.{said};

use crate::limits::{FLOORS, LARGEST_BYTE, NEXT, OWN_ELEMENTS, PLACE, ROOT, TRIE_ROW, VISITS};
use crate::verdict::Verdict;
use walk::{Answer, Found, LEVELS, LookupRefusal, Record, Rows};

// A row of the list: a trie's floor, root stride, place and E, and the number of the trie to go on to. Tries are numbered from 1 on: 0 is
// no trie, as 02 has the list.
#[derive(Clone, Copy)]
pub struct TrieRow {
    pub floor: u16,
    pub root: u32,
    pub place: u32,
    pub elements: u32,
    pub next: u32,
}

// All source tries, lent, and the address that is looked up in them: what the lookups share. The E is that of all tries.
#[derive(Clone, Copy)]
pub(crate) struct Tries<'a> {
    pub width: u32,
    pub levels: u32,
    pub elements: u32,
    pub rows: Rows<'a>,
    pub list: &'a [u32],
    pub source: u32,
    ghost can_visit: { CanVisit width levels elements (lent rows) source },
}

impl<'a> Tries<'a> {
    // Row g of the list, if trie g can be visited: its row stands in the list, and its rows do not run past the E of all tries.
    #[tactic(auto, unfolding(crate::specs::Classify::visitable))]
    fn row(self, g: usize) -> Result<TrieRow, LookupRefusal>
        ensures { result ≡ cond (visitable self.entry.elements self.entry.list.now g) (Ok (trie_row self.entry.list.now g)) (Err Damage) }
    {
        let list = self.list;
        if list.len() / TRIE_ROW <= g {
            return Err(LookupRefusal::Damage);
        }
        let at = g * TRIE_ROW;
        let row = TrieRow {
            floor: (list[at] % FLOORS) as u16,
            root: list[at + ROOT],
            place: list[at + PLACE],
            elements: list[at + OWN_ELEMENTS],
            next: list[at + NEXT],
        };
        if u64::from(self.elements) < u64::from(row.place) + u64::from(row.elements) {
            return Err(LookupRefusal::Damage);
        }
        Ok(row)
    }

    // The lookup in a trie that can be visited. A root stride that no record can hold exceeds the bits left.
    fn find(self, row: TrieRow) -> Result<Found, LookupRefusal>
        requires { row.place + row.elements ≤ self.elements }
        ensures { numbers_of result ≡ answer_numbers (lookup_in WIDTH self.entry.width self.entry.levels (lent self.entry.rows) self.entry.source row) }
    {
        // (Not `u8::try_from`: its error would have to be made this one, in as many lines.)
        if LARGEST_BYTE < row.root {
            return Err(LookupRefusal::Damage);
        }
        let mut strides = [0u8; LEVELS as usize];
        strides[0] = row.root as u8;
        let rec = Record {
            width: self.width,
            levels: self.levels,
            elements: row.elements,
            floor: row.floor,
            strides,
        };
        let place = row.place as usize;
        let Rows {
            hop,
            length,
            link,
            stride,
        } = self.rows;
        let own = Rows {
            hop: &hop[place..],
            length: &length[place..],
            link: &link[place..],
            stride: &stride[place..],
        };
        walk::find(rec, own, self.source)
    }
}

// The source tries from the number `first` on, after `before` blocks in the destination trie. A lookup in one of them is refused for
// damage only. A `while`, since it follows links: it ends at 0, and what it counts is a bound.
pub(crate) fn visit_tries(tries: Tries, first: usize, before: u32) -> Result<Verdict, LookupRefusal>
    requires { before ≤ LEVELS }
    ensures { said result ≡ through_tries WIDTH tries.entry.elements tries.entry.width tries.entry.levels (lent tries.entry.rows) tries.entry.list.now
        tries.entry.source VISITS first before }
{
    let mut n = first;
    let mut reads = before;
    let mut left = VISITS;
    while n != 0 {
        if left == 0 {
            return Err(LookupRefusal::Damage);
        }
        let row = tries.row(n - 1)?;
        let found = tries.find(row)?;
        let so_far = reads + found.reads;
        // The answer is made here and not by `walk::lookup`: handed on in a Result it costs half as much time again.
        match Answer::from(found) {
            Answer::Match { hop, .. } => {
                return Ok(Verdict::Act {
                    action: hop,
                    reads: so_far,
                });
            }
            Answer::Discard { .. } => return Ok(Verdict::Discard { reads: so_far }),
            Answer::NoRoute { .. } => reads = so_far,
        }
        left -= 1;
        n = row.next as usize;
    }
    Ok(Verdict::NoRule { reads })
}
