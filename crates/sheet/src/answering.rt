// The answers: every address is tested, then each is looked up in what the build left, and printed.
ghost use Rattle.std.specs.Prelude.{◌≡◌, ◌==◌, ◌+◌, ◌*◌, ◌≤◌, ◌++◌, length, not};
ghost use Rattle.std.specs.List.{position};
ghost use Rattle.arrayvec.specs.ArrayVec.{array_vec_len};
ghost use Rattle.walk.specs.Lent.{lent};
ghost use Rattle.sheet.specs.Limits.{answer_bytes, report_bytes, PAGE};
ghost use Rattle.sheet.specs.Lent.{LentQueries};
ghost use Rattle.sheet.specs.Answers.{answered, looked_up};

use crate::printing::{Page, put_answer, put_head, put_refusal};
use table::Refusal;
use walk::{AnswerNumbers, Record, Rows};

// What a build left: its record and its rows.
#[derive(Clone, Copy)]
pub(crate) struct Built<'a> {
    pub(crate) record: Record,
    pub(crate) rows: Rows<'a>,
}

// The queries of a sheet: addresses, and how many digits each was written with.
#[derive(Clone, Copy)]
pub(crate) struct Queries<'a> {
    pub(crate) addresses: &'a [u32],
    pub(crate) places: &'a [u8],
    ghost lent: { LentQueries addresses.now places.now },
}

// The first query whose digit count is not the width.
fn first_wrong(width: u32, places: &[u8]) -> Option<usize>
    ensures { result ≡ position (λ n. not (n == width)) places.now }
{
    places.iter().position(|&n| u32::from(n) != width)
}

// Looks each address up, and puts its answer. (A lookup of an address of the right width is not refused.)
fn put_answers(page: &mut Page, built: Built, queries: Queries)
    requires { array_vec_len page.old + length queries.places.now * answer_bytes ≤ PAGE }
    ensures { page.new.items ≡ page.old.items ++ answered built.entry.record (lent built.entry.rows)
        queries.entry.addresses.now queries.entry.places.now }
{
    for (&address, &n) in queries.addresses.iter().zip(queries.places) {
        let answer = AnswerNumbers::from(walk::find(built.record, built.rows, address));
        put_answer(page, address, n, answer);
    }
}

// Puts the report of an accepted build: the refusal of an address, or the answers.
pub(crate) fn put_report(page: &mut Page, built: Built, queries: Queries)
    requires { array_vec_len page.old + report_bytes ≤ PAGE }
    ensures { page.new.items ≡ page.old.items ++ looked_up built.entry.record (lent built.entry.rows)
        queries.entry.addresses.now queries.entry.places.now }
{
    let record = built.record;
    match first_wrong(record.width, queries.places) {
        Some(i) => put_refusal(page, u64::from(Refusal::Address.number()), i as u64),
        None => {
            put_head(page, record.elements, record.strides[0]);
            put_answers(page, built, queries);
        }
    }
}
