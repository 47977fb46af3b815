// Runs the table's four calls about tables and prefixes on the cases of standard input, and prints every answer.
// A line of the input is a case. `table` gives a width, a number of links, the lengths of the three lists and their entries
// (value/length>hop), for this line and those below it, and asks the check; entries that it does not give stay those of
// the line before. `rising` gives a width, a number of links, how many entries and their length, makes these entries, and
// asks the same.
// `zone` asks for a prefix's zone in that table; `shared` for the shared length of two prefixes.
#![tactic(auto)]

use cases::{Table, Text};
use printing::{Program, entries, put_all, read_text, run_lines, say_outcome, say_refusal};
use std::io;
use table::{Refusal, Span};

fn say_shared(out: &impl Print, shared: Result<u32, Refusal>) -> io::Result<()> {
    match shared {
        Ok(bits) => print!(out; "length {bits}"),
        Err(refusal) => say_refusal(out, refusal),
    }
}

fn say_span(out: &impl Print, span: Result<Span, Refusal>) -> io::Result<()> {
    match span {
        Ok(Span { index, count }) => print!(out; "part {index} {count}"),
        Err(refusal) => say_refusal(out, refusal),
    }
}

// The part handed back: its length, then its values.
fn say_part(out: &impl Print, part: &[u32]) -> io::Result<()> {
    let n = part.len();
    print!(out; " holds {n}:")?;
    put_all(out, part)
}

// The shared length of the line's two prefixes of a width.
fn shared_line(out: &impl Print, text: &mut Text) -> io::Result<()> {
    let width = text.held();
    let a = text.held();
    let a_length = text.held();
    let b = text.held();
    let b_length = text.held();
    say_shared(out, table::shared_length(width, a, a_length, b, b_length))
}

// The table of the lines so far.
#[derive(Drop)]
struct Tables<'a> {
    table: Table<'a>,
}

impl Tables<'_> {
    fn check(&self, out: &impl Print) -> io::Result<()> {
        let held = self.table.held;
        let outcome = table::check_table(held.width, held.links, entries(&self.table));
        say_outcome(out, outcome)
    }

    fn zone_line(&self, out: &impl Print, text: &mut Text) -> io::Result<()> {
        let prefix = text.held();
        let bits = text.held();
        let width = self.table.held.width;
        let links = self.table.held.links;
        let entries = entries(&self.table);
        let span = table::zone_span(width, links, entries, prefix, bits);
        say_span(out, span)?;
        let part = table::zone(
            width,
            links,
            entries.value,
            entries.length,
            entries.hop,
            prefix,
            bits,
        );
        say_part(out, part)
    }
}

impl Program for Tables<'_> {
    // The first letter of a line says which case it is.
    fn line<W: Print>(&mut self, out: &W, text: &mut Text) -> io::Result<()> {
        text.seek(b'a', b'z');
        match text.byte() {
            b't' => {
                self.table.read(text);
                self.check(out)
            }
            b'r' => {
                self.table.rise(text);
                self.check(out)
            }
            b'z' => self.zone_line(out, text),
            _ => shared_line(out, text),
        }
    }
}

fn main(rt: HostRuntime) -> io::Result<()> {
    let mut page = cases::page();
    let text = read_text(&mut rt.stdin(), &mut page)?;
    let mut values = cases::values();
    let mut lengths = cases::lengths();
    let mut hops = cases::hops();
    let mut tables = Tables {
        table: Table::new(&mut values, &mut lengths, &mut hops),
    };
    run_lines(&rt, text, &mut tables)
}
