// Runs the tablet's texts of standard input through `sheet::run`, and prints every report with a line `end` after it.
// A case is the word `text` with a number of bytes, a line end, so many bytes of any kind, and a line end.
#![tactic(auto)]

use cases::Text;
use printing::{Program, read_text, run_lines};
use std::io;

// Prints the report of each text.
#[derive(Clone, Copy)]
struct Reports;

impl Program for Reports {
    // One case, whose text begins past the byte after its number.
    fn line<W: Print>(&mut self, out: &W, text: &mut Text) -> io::Result<()> {
        let n = text.number() as usize;
        text.part(1);
        let mut page = sheet::buffer();
        if let Ok(n) = sheet::run(text.part(n), &mut page) {
            out.write_all(&page[..n])?;
        }
        print!(out; "end")
    }
}

fn main(rt: HostRuntime) -> io::Result<()> {
    let mut page = cases::page();
    let text = read_text(&mut rt.stdin(), &mut page)?;
    run_lines(&rt, text, &mut Reports)
}
