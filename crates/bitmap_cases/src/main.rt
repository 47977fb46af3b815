// Runs the build of tree bitmaps and the lookup in them on the cases of standard input, and prints every answer.
// A line of the input is a case. `table` gives the table of the builds below it; `rising` has it made of a width, a
// number of links, a number of entries and their length. `bitmap` gives the lengths of scratch, which is filled with sevens, and of the four
// lists of supernode rows and the hop list, filled with nines; the answer is the outcome, the record, scratch's zeros and
// sevens, and how many nines each list has past the record's counts. `record` gives a record, rows and hops of its own.
// `print` prints the rows and hops within the last record's counts, `look` asks it one address, `sweep` all addresses
// below a number. A line with another word, or with a list longer than the program's room or than the rows or hops that
// it gives, is answered `bad line` and changes nothing. A text that fills the page is answered `text too long`.
#![tactic(auto)]

mod lists;
mod saying;

use cases::{Table, Text, front, front_mut};
use lists::{Lengths, Room};
use printing::{
    Lookup, Program, bad_line, rising_line, run, say_answer, say_outcome, say_scratch, sweep,
    table_line,
};
use saying::{print, say_kept, say_record};
use std::io;
use supernodes::lookup_bitmap;
use visits::Bitmap;
use walk::{Answer, LookupRefusal};

// What the lines so far have left: the table, scratch, and the record and its lists.
#[derive(Drop)]
struct Builds<'a> {
    table: Table<'a>,
    scratch: &'a mut [u64],
    record: Bitmap,
    room: Room<'a>,
}

impl Builds<'_> {
    // Lends as many places of scratch and of the five lists as the line says.
    fn build_line(&mut self, out: &impl Print, text: &mut Text) -> io::Result<()> {
        let mut rest = *text;
        let places = rest.number() as usize;
        let lent = Lengths::read(&mut rest);
        let unfit = lent.is_longer(self.room.internal.len(), self.room.hops.len());
        if self.scratch.len() < places || unfit {
            return bad_line(out, text);
        }
        *text = rest;
        front_mut(self.scratch, places).fill(7);
        self.room.lent = lent;
        self.room.mark();
        let scratch = front_mut(self.scratch, places);
        let built = self.room.build(&self.table, scratch);
        self.record = built.unwrap_or_default();
        say_outcome(out, built)?;
        say_record(out, self.record)?;
        say_scratch(out, front(self.scratch, places))?;
        say_kept(out, self.record, self.room.rows())
    }

    // A record, rows and hops of its own.
    fn record_line(&mut self, out: &impl Print, text: &mut Text) -> io::Result<()> {
        let mut rest = *text;
        let record = Bitmap {
            width: rest.held(),
            supernodes: rest.held(),
            hops: rest.held(),
        };
        let lent = Lengths::read(&mut rest);
        if self.room.is_unfit(rest, lent) {
            return bad_line(out, text);
        }
        *text = rest;
        self.record = record;
        self.room.lent = lent;
        self.room.read_rows(text);
        self.room.read_hops(text);
        print!(out; "record")
    }

    // The rows and hops within the last record's counts.
    fn print_line(&self, out: &impl Print, text: &mut Text) -> io::Result<()> {
        text.seek(b'\n', b'\n');
        print(out, self.record, self.room.rows())
    }
}

impl Lookup for Builds<'_> {
    // What the last record and its lists answer for an address.
    fn lookup(&self, address: u32) -> Result<Answer, LookupRefusal> {
        lookup_bitmap(self.record, self.room.rows(), address)
    }
}

impl Program for Builds<'_> {
    fn line<W: Print>(&mut self, out: &W, text: &mut Text) -> io::Result<()> {
        text.seek(b'\n', b'\n');
        text.seek(b'!', b'~');
        match text.word() {
            b"table" => table_line(out, text, &mut self.table),
            b"rising" => rising_line(out, text, &mut self.table),
            b"bitmap" => self.build_line(out, text),
            b"record" => self.record_line(out, text),
            b"print" => self.print_line(out, text),
            b"look" => say_answer(out, self.lookup(text.held())),
            b"sweep" => sweep(out, text.held(), self),
            _ => bad_line(out, text),
        }
    }
}

// Before the first case: no table, a record of zeros, no rows.
fn main(rt: HostRuntime) -> io::Result<()> {
    let mut page = cases::page();
    let mut values = cases::values();
    let mut lengths = cases::lengths();
    let mut hops = cases::hops();
    let mut scratch = cases::scratch();
    let mut internal = cases::maps();
    let mut external = cases::maps();
    let mut child = cases::firsts();
    let mut first = cases::firsts();
    let mut hop_rows = cases::hop_rows();
    let mut builds = Builds {
        table: Table::new(&mut values, &mut lengths, &mut hops),
        scratch: &mut scratch,
        record: Bitmap::default(),
        room: Room {
            lent: Lengths::default(),
            internal: &mut internal,
            external: &mut external,
            child: &mut child,
            first: &mut first,
            hops: &mut hop_rows,
        },
    };
    run(&rt, &mut rt.stdin(), &mut page, &mut builds)
}
