// The lookup for C, one address or many (01, "The element rows").
ghost use Rattle.std.specs.Prelude.{◌≡◌, ◌<◌, min, length};
ghost use Rattle.walk.specs.Limits.{WIDTH};
ghost use Rattle.walk.specs.Lent.{lent};
ghost use Rattle.walk.specs.Lookup.{lookup_of};
ghost use Rattle.walk.specs.Meaning.{Looked};
ghost use Rattle.table.specs.Answers.{Told};
ghost use Rattle.walk.specs.Answers.{answer_numbers};
ghost use Rattle.gateway.specs.Batch.{ExactAnswer, Answered};
ghost use Rattle.gateway.specs.Lent.{answers_in, SameAnswers};

use walk::{AnswerNumbers, Record, Rows};

// The lists that a batch of lookups writes: of each address its answer in numbers. (Lists and not one of structs: C lends them.)
#[derive(Drop)]
pub struct AnswerLists<'a> {
    pub number: &'a mut [u32],
    pub hop: &'a mut [u16],
    pub length: &'a mut [u8],
    pub reads: &'a mut [u32],
}

impl AnswerLists<'_> {
    ghost use Rattle.gateway.specs.Batch.{put_answer, places};

    // The places that all four lists have.
    pub fn len(&self) -> usize
        ensures { result ≡ places (answers_in self.now) }
    {
        self.number
            .len()
            .min(self.hop.len())
            .min(self.length.len())
            .min(self.reads.len())
    }

    fn put(&mut self, i: usize, found: AnswerNumbers)
        requires { i < places (answers_in self.old) }
        ensures same { SameAnswers self.old self.new }
        ensures put { answers_in self.new ≡ put_answer (answers_in self.old) i found }
    {
        self.number[i] = found.number;
        self.hop[i] = found.hop;
        self.length[i] = found.length;
        self.reads[i] = found.reads;
    }
}

// Looks the address up: tests 1, 2, 8, 9. Over the record and lists that one accepted build left together it is the hop and the
// length of the longest prefix that begins the address, a discard's too, or none. No list changes.
pub fn hongsamuk_lookup(rec: Record, rows: Rows, address: u32) -> AnswerNumbers
    ensures exact { result ≡ answer_numbers (lookup_of WIDTH rec (lent rows.entry) address) }
    ensures meaning { Told (Looked WIDTH rec (lent rows.entry) address) answer_numbers result }
{
    AnswerNumbers::from(walk::find(rec, rows, address))
}

// Lookups one after the other: as many as the shortest of the address list and the four answer lists has. Number, hop, length and
// reads of each are written at its index, later places are kept, and the answer is how many. No other list changes.
pub fn hongsamuk_lookup_batch(
    rec: Record,
    rows: Rows,
    address: &[u32],
    answers: &mut AnswerLists,
) -> usize
    ensures same { SameAnswers answers.old answers.new }
    ensures exact { Answered (ExactAnswer rec (lent rows.entry)) address.now (answers_in answers.old) (answers_in answers.new) result }
    ensures meaning { Answered (Looked WIDTH rec (lent rows.entry)) address.now (answers_in answers.old) (answers_in answers.new) result }
{
    let n = address.len().min(answers.len());
    for i in 0..n {
        let found = walk::find(rec, rows, address[i]);
        answers.put(i, AnswerNumbers::from(found));
    }
    n
}
