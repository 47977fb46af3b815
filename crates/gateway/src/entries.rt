// The table check and the two answers about entries, for C (01, "Refusals" and "Two answers about entries").
ghost use Rattle.std.specs.Prelude.{◌≡◌};
ghost use Rattle.table.specs.Refusals.{refusal_number, refusal_detail, Gives};
ghost use Rattle.table.specs.Table.{table_tests, check_of};
ghost use Rattle.table.specs.Answers.{Told, shared_of, Shares, span_of, Spans};
ghost use Rattle.gateway.specs.Numbers.{outcome_numbers, shared_numbers, span_numbers};

use table::{Entries, Refusal, Span};

#[derive(Clone, Copy)]
#[repr(C)]
pub struct Checked {
    pub number: u32,
    pub detail: u64,
}

#[derive(Clone, Copy)]
#[repr(C)]
pub struct SharedNumbers {
    pub number: u32,
    pub bits: u32,
}

#[derive(Clone, Copy)]
#[repr(C)]
pub struct SpanNumbers {
    pub number: u32,
    pub detail: u64,
    pub index: u32,
    pub count: u32,
}

impl From<Refusal> for Checked {
    ghost from_gives = { λ refusal told. (told.number ≡ refusal_number refusal) × (told.detail ≡ refusal_detail refusal) };

    fn from(refusal: Refusal) -> Checked {
        Checked {
            number: refusal.number(),
            detail: refusal.detail(),
        }
    }
}

impl From<Result<(), Refusal>> for Checked {
    ghost from_gives = { λ outcome numbers. numbers ≡ outcome_numbers outcome };

    fn from(outcome: Result<(), Refusal>) -> Checked {
        match outcome {
            Ok(()) => Checked {
                number: 0,
                detail: 0,
            },
            Err(refusal) => Checked::from(refusal),
        }
    }
}

// The detail of a refused shared length is 0, so it has no place.
#[tactic(auto, unfolding(table::specs::Refusals::outcome_of))]
impl From<Result<u32, Refusal>> for SharedNumbers {
    ghost from_gives = { λ shared numbers. numbers ≡ shared_numbers shared };

    fn from(shared: Result<u32, Refusal>) -> SharedNumbers {
        match shared {
            Ok(bits) => SharedNumbers { number: 0, bits },
            Err(refusal) => SharedNumbers {
                number: refusal.number(),
                bits: 0,
            },
        }
    }
}

#[tactic(auto, unfolding(table::specs::Refusals::outcome_of))]
impl From<Result<Span, Refusal>> for SpanNumbers {
    ghost from_gives = { λ span numbers. numbers ≡ span_numbers span };

    fn from(span: Result<Span, Refusal>) -> SpanNumbers {
        match span {
            Ok(Span { index, count }) => SpanNumbers {
                number: 0,
                detail: 0,
                index,
                count,
            },
            Err(refusal) => SpanNumbers {
                number: refusal.number(),
                detail: refusal.detail(),
                index: 0,
                count: 0,
            },
        }
    }
}

// Whether three lists are a table of the width: tests 1, 3, 4, 5. No list changes.
pub fn hongsamuk_check(width: u32, links: u16, entries: Entries) -> Checked
    ensures exact { result ≡ outcome_numbers (check_of width links entries.entry.value.now entries.entry.length.now entries.entry.hop.now) }
    ensures meaning { Told (Gives (table_tests width links entries.entry.value.now entries.entry.length.now entries.entry.hop.now))
        outcome_numbers result }
{
    Checked::from(table::check_table(width, links, entries))
}

// How many leading bits the prefixes (a, alen) and (b, blen) share: tests 1, then 10.
pub fn hongsamuk_shared_length(width: u32, a: u32, alen: u8, b: u32, blen: u8) -> SharedNumbers
    ensures exact { result ≡ shared_numbers (shared_of width a alen b blen) }
    ensures meaning { Told (Shares width a alen b blen) shared_numbers result }
{
    SharedNumbers::from(table::shared_length(width, a, alen, b, blen))
}

// The first index and the number of the entries that start with a prefix; where there are none, count 0 at the index where the
// prefix itself would stand: tests 1, 3, 4, 5, 10. No list changes.
pub fn hongsamuk_zone_span(
    width: u32,
    links: u16,
    entries: Entries,
    prefix: u32,
    bits: u8,
) -> SpanNumbers
    ensures exact { result ≡ span_numbers
        (span_of width links entries.entry.value.now entries.entry.length.now entries.entry.hop.now prefix bits) }
    ensures meaning { Told (Spans width links entries.entry.value.now entries.entry.length.now entries.entry.hop.now prefix bits)
        span_numbers result }
{
    SpanNumbers::from(table::zone_span(width, links, entries, prefix, bits))
}
