// The whole run: the text is read, the sheet is solved, the report is printed to a page and handed over.
ghost use Rattle.std.specs.Prelude.{◌≡◌, ◌+◌, ◌≤◌, ◌++◌, length, replicate};
ghost use Rattle.arrayvec.specs.ArrayVec.{array_vec_len};
ghost use Rattle.io.specs.Counts.{IsPrefixLen};
ghost use Rattle.sheet.specs.Limits.{PAGE, report_bytes};
ghost use Rattle.sheet.specs.Tablet.{report_of, answer_for, left_for, Ran, PageRan, Fits};
ghost use Rattle.sheet.specs.Meaning.{Reports, PageReports};

use crate::limits::{BAD_TEXT, PAGE};
use crate::printing::{Page, put_refusal};
use crate::solving::solve;

// The report does not fit: how many bytes it needs.
#[derive(Clone, Copy, Debug, PartialEq, Eq)]
pub struct NoRoom {
    pub needed: usize,
}

// Room for a text, or for a report, all 0: both are shorter.
pub fn buffer() -> [u8; PAGE]
    ensures size { PAGE ≡ length result }
    ensures blank { result ≡ replicate PAGE 0 }
{
    [0; PAGE]
}

// Puts the report of a text.
fn put_run(page: &mut Page, text: &[u8])
    requires { array_vec_len page.old + report_bytes ≤ PAGE }
    ensures { page.new.items ≡ page.old.items ++ report_of text.now }
{
    match reading::read(text) {
        Ok(sheet) => solve(page, &sheet),
        Err(bad) => put_refusal(page, BAD_TEXT, bad.line as u64),
    }
}

// Hands the page over: all of it at the start of `out`, or nothing where that is too short.
fn hand_over(page: &Page, out: &mut [u8]) -> Result<usize, NoRoom>
    ensures answer { result ≡ answer_for page.now.items out.old }
    ensures left { out.new ≡ left_for page.now.items out.old }
    ensures fits { Fits result out.new }
{
    let n = page.len();
    if out.len() < n {
        return Err(NoRoom { needed: n });
    }
    out[..n].copy_from_slice(page.as_slice());
    Ok(n)
}

// Reads the tablet's text and writes the report at the start of `out`: its length, later bytes kept; or `NoRoom` with the bytes that it
// needs, where `out` is shorter, and nothing is written.
pub fn run(text: &[u8], out: &mut [u8]) -> Result<usize, NoRoom>
    ensures exact { Ran text.now out.old out.new result }
    ensures meaning { Reports text.now out.old out.new result }
    ensures fits { Fits result out.new }
{
    let mut page = Page::new();
    put_run(&mut page, text);
    hand_over(&page, out)
}

// The program's own run: n bytes of the text were read to the page, all of it, or its beginning where the page is full. No good text is
// longer than a page, so what is promised holds of the whole text, however long; and a page holds every report. Answers its length.
// (Pages and a count, no slices: the type says that the room is enough, so that there is nothing to refuse.)
pub fn run_page(page: &[u8; PAGE], n: usize, out: &mut [u8; PAGE]) -> usize
    ensures exact { PageRan page.now n out.old out.new result }
    ensures meaning { PageReports page.now n out.old out.new result }
    ensures fits { IsPrefixLen result out.new }
{
    run(&page[..n.min(PAGE)], out).unwrap()
}
