// Runs the two stride choosers on the cases of standard input, and prints every answer.
// A line of the input is a case. `table` gives the table of the lines below it; `rising` has it made of a width, a number
// of links, a number of entries and their length. `fixed` and `variable` give the level limit and the length of the scratch list, which is
// filled with sevens. The answer is the outcome, the cost, the strides, and how many zeros and how many sevens scratch
// then holds.
#![tactic(auto)]

use cases::{Table, Text, front, front_mut};
use choosers::{Chosen, Kind};
use printing::{Program, entries, read_text, run_lines, say_outcome, say_scratch, say_strides};
use std::io;
use table::Refusal;

// The outcome, then cost and strides: zeros where it is refused.
fn say_chosen(out: &impl Print, chosen: Result<Chosen, Refusal>) -> io::Result<()> {
    say_outcome(out, chosen)?;
    let chosen = chosen.unwrap_or_default();
    let cost = chosen.cost;
    print!(out; " cost {cost}")?;
    say_strides(out, &chosen.strides)
}

// The table of the lines so far, and scratch.
#[derive(Drop)]
struct Choices<'a> {
    table: Table<'a>,
    scratch: &'a mut [u64],
}

impl Choices<'_> {
    // The choice in so many places of scratch.
    fn choose(&mut self, kind: Kind, levels: u32, places: usize) -> Result<Chosen, Refusal> {
        let held = self.table.held;
        let scratch = front_mut(self.scratch, places);
        choosers::choose(
            kind,
            held.width,
            levels,
            held.links,
            entries(&self.table),
            scratch,
        )
    }

    // Lends as many places of scratch as the line says.
    fn choose_line(&mut self, out: &impl Print, text: &mut Text, kind: Kind) -> io::Result<()> {
        let levels = text.held();
        let places = text.number() as usize;
        front_mut(self.scratch, places).fill(7);
        let chosen = self.choose(kind, levels, places);
        say_chosen(out, chosen)?;
        say_scratch(out, front(self.scratch, places))
    }
}

impl Program for Choices<'_> {
    // The first letter of a line says which case it is.
    fn line<W: Print>(&mut self, out: &W, text: &mut Text) -> io::Result<()> {
        text.seek(b'a', b'z');
        match text.byte() {
            b't' => {
                self.table.read(text);
                print!(out; "table")
            }
            b'r' => {
                self.table.rise(text);
                print!(out; "rising")
            }
            b'f' => self.choose_line(out, text, Kind::Fixed),
            _ => self.choose_line(out, text, Kind::Variable),
        }
    }
}

fn main(rt: HostRuntime) -> io::Result<()> {
    let mut page = cases::page();
    let text = read_text(&mut rt.stdin(), &mut page)?;
    let mut values = cases::values();
    let mut lengths = cases::lengths();
    let mut hops = cases::hops();
    let mut scratch = cases::scratch();
    let mut choices = Choices {
        table: Table::new(&mut values, &mut lengths, &mut hops),
        scratch: &mut scratch,
    };
    run_lines(&rt, text, &mut choices)
}
