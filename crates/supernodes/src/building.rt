// The build of tree bitmap arrays (02 [1]): a table becomes a record, rows of supernodes and their hops.
ghost use Rattle.std.specs.Prelude.{◌≡◌, ℕ, ◌<◌, length};
ghost use Rattle.table.specs.Table.{at};
ghost use Rattle.walk.specs.Limits.{HOPS};
ghost use Rattle.table.specs.Refusals.{outcome, outcome_of};
ghost use Rattle.visits.specs.Lent.{held, SameSupernodes};
ghost use Rattle.supernodes.specs.Fitting.{FitTable, TableLined};
ghost use Rattle.supernodes.specs.Build.{up_to_scratch, record_of, BitmapFilled, BitmapIs, BuildsBitmap};

use crate::limits::NODE_ROW;
use crate::nodes::{grow, link};
use crate::queue::line_up;
use crate::ranges::nodes_in;
use crate::rows::write_rows;
use table::{Entries, Refusal, check_table, zero};
use visits::{Bitmap, SupernodesMut};

// Tests 1 to 6, in order: `words` is the length of the lent scratch. No list is touched.
fn tested(width: u32, links: u16, entries: Entries, words: usize) -> Result<(), Refusal>
    ensures { result ≡ outcome
        (up_to_scratch width links entries.entry.value.now entries.entry.length.now entries.entry.hop.now words) }
{
    check_table(width, links, entries)?;
    let nodes = nodes_in(width, &entries, 0, 0, entries.value.len());
    if words / NODE_ROW < nodes {
        return Err(Refusal::Scratch {
            needed: nodes as u64,
        });
    }
    Ok(())
}

// Lines up the supernodes of a table in scratch, whatever it held; returns how many there are.
fn line_table(width: u32, entries: Entries, scratch: &mut [u64]) -> usize
    requires { FitTable width entries.value.now entries.length.now entries.hop.now scratch.old }
    ensures { TableLined width entries.entry.value.now entries.entry.length.now entries.entry.hop.now result scratch.new }
{
    let used = grow(scratch, width, &entries, 0, 0, entries.value.len(), 0);
    line_up(scratch, link(0, used))
}

// The rows that a table's hops need: one each. A hop has 16 bits.
fn hop_rows(hop: &[u16]) -> usize
    ensures count { result ≡ length hop.now }
    ensures small { (i : ℕ) → at hop.now i < HOPS }
{
    hop.len()
}

// Past test 6: refuses for room (7) or writes the rows. Each entry's hop gets a row. Scratch is left as it comes.
fn fill_rows(
    width: u32,
    entries: Entries,
    scratch: &mut [u64],
    rows: &mut SupernodesMut,
) -> Result<Bitmap, Refusal>
    requires { FitTable width entries.value.now entries.length.now entries.hop.now scratch.old }
    ensures same { SameSupernodes rows.old rows.new }
    ensures filled { BitmapFilled width entries.entry.value.now entries.entry.length.now entries.entry.hop.now
        (held rows.old) rows.old.hops.now (outcome_of result) (record_of result) (held rows.new) rows.new.hops.now }
{
    let count = line_table(width, entries, scratch);
    if rows.len() < count {
        return Err(Refusal::Room {
            needed: count as u64,
        });
    }
    let hops = hop_rows(entries.hop);
    if rows.hops.len() < hops {
        return Err(Refusal::Room {
            needed: hops as u64,
        });
    }
    write_rows(scratch, count, rows);
    Ok(Bitmap {
        width,
        supernodes: count as u32,
        hops: hops as u32,
    })
}

// Turns a table into a record, rows of supernodes and their hops, or refuses it by the first of the tests 1, 3, 4, 5, 6 and 7 (too few
// rows, then too few hop rows). Refused, no row or hop changes; 1 to 6 keep scratch too, else all of it is 0.
pub fn build_bitmap(
    width: u32,
    links: u16,
    entries: Entries,
    scratch: &mut [u64],
    rows: &mut SupernodesMut,
) -> Result<Bitmap, Refusal>
    ensures same { SameSupernodes rows.old rows.new }
    ensures exact { BitmapIs width links entries.entry.value.now entries.entry.length.now entries.entry.hop.now scratch.old
        (held rows.old) rows.old.hops.now (outcome_of result) (record_of result) scratch.new (held rows.new) rows.new.hops.now }
    ensures meaning { BuildsBitmap width links entries.entry.value.now entries.entry.length.now entries.entry.hop.now scratch.old
        (held rows.old) rows.old.hops.now (outcome_of result) (record_of result) scratch.new (held rows.new) rows.new.hops.now }
{
    tested(width, links, entries, scratch.len())?;
    // No `?` here: scratch is cleared after test 7 too.
    let built = fill_rows(width, entries, scratch, rows);
    zero(scratch);
    built
}
