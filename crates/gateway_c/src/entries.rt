// The table check and the two answers about entries, for C (01, "Refusals" and "Two answers about entries").
ghost use Rattle.std.specs.Prelude.{◌≡◌};
ghost use Rattle.table.specs.Refusals.{Gives};
ghost use Rattle.table.specs.Table.{table_tests, check_of};
ghost use Rattle.table.specs.Answers.{Told, shared_of, Shares, span_of, Spans};
ghost use Rattle.gateway.specs.Numbers.{outcome_numbers, shared_numbers, span_numbers};

use gateway::{Checked, SharedNumbers, SpanNumbers};
use table::Entries;

// Whether three lists are a table of the width: tests 1, 3, 4, 5. No list changes.
#[unsafe(no_mangle)]
pub extern "C" fn hongsamuk_check(
    width: u32,
    links: u16,
    value: &[u32],
    length: &[u8],
    hop: &[u16],
) -> Checked
    ensures exact { result ≡ outcome_numbers (check_of width links value.now length.now hop.now) }
    ensures meaning { Told (Gives (table_tests width links value.now length.now hop.now)) outcome_numbers result }
{
    gateway::hongsamuk_check(width, links, Entries { value, length, hop })
}

// How many leading bits the prefixes (a, alen) and (b, blen) share: tests 1, then 10.
#[unsafe(no_mangle)]
pub extern "C" fn hongsamuk_shared_length(
    width: u32,
    a: u32,
    alen: u8,
    b: u32,
    blen: u8,
) -> SharedNumbers
    ensures exact { result ≡ shared_numbers (shared_of width a alen b blen) }
    ensures meaning { Told (Shares width a alen b blen) shared_numbers result }
{
    gateway::hongsamuk_shared_length(width, a, alen, b, blen)
}

// The first index and the number of the entries that start with a prefix; where there are none, count 0 at the index where the
// prefix itself would stand: tests 1, 3, 4, 5, 10. No list changes.
#[unsafe(no_mangle)]
pub extern "C" fn hongsamuk_zone_span(
    width: u32,
    links: u16,
    value: &[u32],
    length: &[u8],
    hop: &[u16],
    prefix: u32,
    bits: u8,
) -> SpanNumbers
    ensures exact { result ≡ span_numbers (span_of width links value.now length.now hop.now prefix bits) }
    ensures meaning { Told (Spans width links value.now length.now hop.now prefix bits) span_numbers result }
{
    gateway::hongsamuk_zone_span(width, links, Entries { value, length, hop }, prefix, bits)
}
