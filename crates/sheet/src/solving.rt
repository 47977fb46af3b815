// A good sheet, solved (01, "The tablet program"): the build over what the program lends, then its refusal, or the report of its
// answers.
ghost use Rattle.std.specs.Prelude.{◌≡◌, ◌+◌, ◌≤◌, ◌++◌};
ghost use Rattle.arrayvec.specs.ArrayVec.{array_vec_len};
ghost use Rattle.table.specs.Refusals.{outcome_of};
ghost use Rattle.walk.specs.Lent.{held, SameLists};
ghost use Rattle.tries.specs.Build.{record_of};
ghost use Rattle.reading.specs.Contents.{sheet_in, GoodContents};
ghost use Rattle.reading.specs.Text.{good};
ghost use Rattle.sheet.specs.Limits.{PAGE, report_bytes};
ghost use Rattle.sheet.specs.Lent.{SheetBuilt};
ghost use Rattle.sheet.specs.Tablet.{text_report};

use crate::answering::{Built, Queries, put_report};
use crate::limits::{LENT_ELEMENTS, LENT_ROWS};
use crate::printing::{Page, put_refusal};
use crate::values::sheet_values;
use reading::Contents;
use table::{Entries, Refusal};
use tries::ROW;
use walk::{Record, RowsMut};

// Builds the table of a sheet's entries, over scratch of its own, into the rows lent. (`GoodContents` is asked here and no ghost field of
// `Contents`: that is public, and who makes one would owe the fact.)
fn build_sheet(sheet: &Contents, rows: &mut RowsMut) -> Result<Record, Refusal>
    requires { GoodContents sheet.now }
    ensures same { SameLists rows.old rows.new }
    ensures built { SheetBuilt (sheet_in sheet.now) (held rows.old) (outcome_of result) (record_of result) (held rows.new) }
{
    let n = sheet.entries;
    let entries = Entries {
        value: &sheet_values(sheet)[..n],
        length: &sheet.lengths[..n],
        hop: &sheet.hops[..n],
    };
    let mut scratch = [0; LENT_ROWS * ROW];
    tries::build(
        sheet.kind,
        sheet.width,
        sheet.levels,
        sheet.links,
        entries,
        &mut scratch,
        rows,
    )
}

// Builds a good text's table, into rows of its own, and puts the report.
pub(crate) fn solve(page: &mut Page, sheet: &Contents)
    requires { (array_vec_len page.old + report_bytes ≤ PAGE) × GoodContents sheet.now }
    ensures { page.new.items ≡ page.old.items ++ text_report (good (sheet_in sheet.now)) }
{
    let mut hop = [0u16; LENT_ELEMENTS];
    let mut length = [0u8; LENT_ELEMENTS];
    let mut link = [0u32; LENT_ELEMENTS];
    let mut stride = [0u8; LENT_ELEMENTS];
    let mut rows = RowsMut {
        hop: &mut hop,
        length: &mut length,
        link: &mut link,
        stride: &mut stride,
    };
    match build_sheet(sheet, &mut rows) {
        Err(refusal) => put_refusal(page, u64::from(refusal.number()), refusal.detail()),
        Ok(record) => {
            let m = sheet.queries;
            let queries = Queries {
                addresses: &sheet.addresses[..m],
                places: &sheet.places[..m],
            };
            let built = Built {
                record,
                rows: rows.rows(),
            };
            put_report(page, built, queries);
        }
    }
}
