// Runs build and lookup on the cases of standard input, and prints every answer.
// A line of the input is a case. `table` gives the table of the builds below it; `rising` has it made of a width, a
// number of links, a number of entries and their length. `fixed` and `variable` give the level limit and the lengths of scratch, which is
// filled with sevens, and of the element lists, filled with nines, the length list with fives; the answer is the outcome,
// the record, scratch's zeros and sevens, and how many nines, or fives, each element list has past row E. The element lists
// and the four numbers of a row are in the order hop, length, link, stride. `record` gives a record and rows of its own.
// `print` prints rows 0 to E-1 of the last record, `look` asks it one address, `sweep` all addresses below a number. A line
// with another word, or with a list longer than the program's room or than the rows that it gives, is answered `bad line`
// and changes nothing. A text that fills the page is answered `text too long`.
#![tactic(auto)]

use cases::{ElementRows, FourLengths, Table, Text, front, front_mut};
use printing::{
    Lookup, Program, bad_line, entries, lent_rows, mark_rows, rising_line, run, say_answer,
    say_elements, say_kept_rows, say_outcome, say_scratch, say_trie_record, sweep, table_line,
    trie_record,
};
use std::io;
use table::Refusal;
use tries::Kind;
use walk::{Answer, LookupRefusal, Record, RowsMut};

// What the lines so far have left: the table, scratch, and the record and its rows.
#[derive(Drop)]
struct Builds<'a> {
    table: Table<'a>,
    scratch: &'a mut [u64],
    record: Record,
    rows: ElementRows<'a>,
}

// Builds in what is lent of the element lists. (Over the rows and not `Builds`: a part of a list behind two references is not covered by the
// check.)
fn build(
    kind: Kind,
    levels: u32,
    table: &Table,
    scratch: &mut [u64],
    rows: &mut ElementRows,
) -> Result<Record, Refusal> {
    let held = table.held;
    let lent = rows.lent;
    let mut rows = RowsMut {
        hop: front_mut(rows.hops, lent.hops),
        length: front_mut(rows.lengths, lent.lengths),
        link: front_mut(rows.links, lent.links),
        stride: front_mut(rows.strides, lent.strides),
    };
    tries::build(
        kind,
        held.width,
        levels,
        held.links,
        entries(table),
        scratch,
        &mut rows,
    )
}

impl Builds<'_> {
    // Lends as many places of scratch and of the element lists as the line says.
    fn build_line(&mut self, out: &impl Print, text: &mut Text, kind: Kind) -> io::Result<()> {
        let mut rest = *text;
        let levels = rest.held();
        let places = rest.number() as usize;
        let lent = FourLengths::read(&mut rest);
        if self.scratch.len() < places || lent.is_past(self.rows.hops.len()) {
            return bad_line(out, text);
        }
        *text = rest;
        front_mut(self.scratch, places).fill(7);
        self.rows.lent = lent;
        mark_rows(&mut self.rows);
        let scratch = front_mut(self.scratch, places);
        let built = build(kind, levels, &self.table, scratch, &mut self.rows);
        self.record = built.unwrap_or_default();
        say_outcome(out, built)?;
        say_trie_record(out, self.record)?;
        say_scratch(out, front(self.scratch, places))?;
        say_kept_rows(out, self.record.elements as usize, lent_rows(&self.rows))
    }

    // A record and rows of its own.
    fn record_line(&mut self, out: &impl Print, text: &mut Text) -> io::Result<()> {
        let mut rest = *text;
        let record = trie_record(&mut rest);
        let lent = FourLengths::read(&mut rest);
        let mut ahead = rest;
        let rows = ahead.number() as usize;
        if self.rows.hops.len() < rows || lent.is_past(rows) {
            return bad_line(out, text);
        }
        *text = rest;
        self.record = record;
        self.rows.lent = lent;
        self.rows.read(text);
        print!(out; "record")
    }

    // Rows 0 to E - 1 of the last record.
    fn print(&self, out: &impl Print, text: &mut Text) -> io::Result<()> {
        text.seek(b'\n', b'\n');
        say_elements(out, self.record.elements as usize, lent_rows(&self.rows))
    }
}

impl Lookup for Builds<'_> {
    // What the last record and its rows answer for an address.
    fn lookup(&self, address: u32) -> Result<Answer, LookupRefusal> {
        walk::lookup(self.record, lent_rows(&self.rows), address)
    }
}

impl Program for Builds<'_> {
    fn line<W: Print>(&mut self, out: &W, text: &mut Text) -> io::Result<()> {
        text.seek(b'\n', b'\n');
        text.seek(b'!', b'~');
        match text.word() {
            b"table" => table_line(out, text, &mut self.table),
            b"rising" => rising_line(out, text, &mut self.table),
            b"fixed" => self.build_line(out, text, Kind::Fixed),
            b"variable" => self.build_line(out, text, Kind::Variable),
            b"record" => self.record_line(out, text),
            b"print" => self.print(out, text),
            b"look" => say_answer(out, self.lookup(text.held())),
            b"sweep" => sweep(out, text.held(), self),
            _ => bad_line(out, text),
        }
    }
}

fn main(rt: HostRuntime) -> io::Result<()> {
    let mut page = cases::page();
    let mut values = cases::values();
    let mut lengths = cases::lengths();
    let mut hops = cases::hops();
    let mut scratch = cases::scratch();
    let mut row_hops = cases::row_hops();
    let mut row_lengths = cases::row_lengths();
    let mut row_links = cases::row_links();
    let mut row_strides = cases::row_strides();
    let mut builds = Builds {
        table: Table::new(&mut values, &mut lengths, &mut hops),
        scratch: &mut scratch,
        record: Record::default(),
        rows: ElementRows::new(
            &mut row_hops,
            &mut row_lengths,
            &mut row_links,
            &mut row_strides,
        ),
    };
    run(&rt, &mut rt.stdin(), &mut page, &mut builds)
}
