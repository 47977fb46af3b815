// The tablet program: standard input to standard output. All the work is done by `sheet::run_page`, which takes a page of the
// right size and nothing shorter: no good text is longer, and a page holds every report.
//
// A read that fails is not the end of the text: then no report is printed, and one line on standard error says so. It is not
// tried again: the program catches no signal, so none interrupts a read.
#![tactic(auto)]

ghost use Rattle.std.specs.Prelude.{◌<◌, ◌≤◌, length, take, IfOk, OnOk};
ghost use Rattle.std.specs.Io.KnownBytes.{Consumes, IsAtEnd};
ghost use Rattle.tablet.specs.Printed.{Prints};
ghost use Rattle.tablet.specs.Stopping.{Stopped};

use std::io;
use std::io::{Read, Write};

// Which end of the program failed.
#[derive(Clone, Copy, Debug, PartialEq, Eq)]
enum Failed {
    Reading,
    Writing,
}

impl Failed {
    // The line for standard error. (No `Display`: nothing else is printed.)
    fn line(self) -> &'static str {
        match self {
            Failed::Reading => "tablet: standard input cannot be read: no report\n",
            Failed::Writing => {
                "tablet: standard output cannot be written: the report is not whole\n"
            }
        }
    }
}

// What reading came to: how many bytes of the text stand on the page, and what the last read answered (0: the text has ended).
#[derive(Clone, Copy)]
struct Reading {
    count: usize,
    last: usize,
}

// Reads until the page is full or the text ends. Of a reader whose bytes no contract knows, as standard input's, `stopped` is what there is
// to say: it stopped for one of these.
// (By hand: std's `read_to_end` wants a `Vec`, and the page is fixed memory. printing's `read_page` is the same loop, in a crate of the
// vector programs: none of those is below this one.)
fn read_text<R: Read>(input: &mut R, page: &mut [u8]) -> io::Result<Reading>
    ensures within { IfOk result (λ r. r.count ≤ length page.new) }
    ensures stopped { Stopped (length page.old) result }
    ensures bytes { IfOk result (λ r. Consumes (R.remaining input.old) (R.remaining input.new) (take r.count page.new)) }
    ensures whole { IfOk result (λ r. r.count < length page.new → IsAtEnd (R.remaining input.new)) }
{
    let mut n = 0;
    while n < page.len() {
        let k = input.read(&mut page[n..])?;
        if k == 0 {
            return Ok(Reading { count: n, last: k });
        }
        n += k;
    }
    Ok(Reading { count: n, last: 1 })
}

// The whole program: the report of a text of any length. (`let .. else`: tried as `.map_err(|_| ..)?`, the proof did not close.)
fn tablet<R: Read, W: Write>(input: &mut R, output: &mut W) -> Result<(), Failed>
    ensures { OnOk result (Prints (R.remaining input.old) (W.contents output.old) (W.contents output.new)) }
{
    let mut text = sheet::buffer();
    let Ok(got) = read_text(input, &mut text) else {
        return Err(Failed::Reading);
    };
    let mut page = sheet::buffer();
    let k = sheet::run_page(&text, got.count, &mut page);
    let Ok(()) = output.write_all(&page[..k]) else {
        return Err(Failed::Writing);
    };
    Ok(())
}

fn main(rt: HostRuntime) {
    if let Err(failed) = tablet(&mut rt.stdin(), &mut rt.stdout()) {
        let _ = rt.eprint(failed.line());
    }
}
