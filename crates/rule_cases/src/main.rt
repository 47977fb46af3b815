// Runs the build of rules and the classification by them on the cases of standard input, and prints every answer.
// A line of the input is a case. `rules` gives a width, a number of links and the rules of the builds below it. `fixed` and
// `variable` give the level limit and the lengths of scratch, which is filled with sevens, of the element lists, filled with nines,
// the length list with fives, and of the list of tries, in numbers, filled with nines; the answer is the outcome, the destinations'
// record, the E of all tries, scratch's zeros and sevens, how many nines, or fives, each element list has past row E of all tries,
// and how many nines the list of tries has. The element lists and the four numbers of a row are in the order hop, length, link, stride. `record` gives a
// record, rows and a list of tries of its own. `print` prints the rows of all tries and the list of tries, `look` asks for one
// destination and source, `sweep` for all destinations below a number, each with all sources below another. A line with another
// word, or with a list longer than the program's room or than what the line gives for it, is answered `bad line` and changes
// nothing. A text that fills the page is answered `text too long`.
#![tactic(auto)]

mod given;
mod saying;

use cases::{ElementRows, FourLengths, Text, front, front_mut};
use choosers::Kind;
use given::{Held, Rules};
use printing::{
    Program, bad_line, lent_rows, mark_rows, put_all, run, say_elements, say_kept_rows,
    say_outcome, say_scratch, say_trie_record, trie_record,
};
use rules::build_rules;
use saying::{Short, say_verdict};
use std::io;
use table::Refusal;
use verdicts::{RuleRecord, Verdict, classify};
use walk::{LookupRefusal, RowsMut};

// What the lines so far have left: the rules, scratch, the record and its rows, and the list of tries, of which so many places are lent:
// the numbers past them stay, and a later line may lend them again.
#[derive(Drop)]
struct Builds<'a> {
    rules: Rules<'a>,
    scratch: &'a mut [u64],
    record: RuleRecord,
    rows: ElementRows<'a>,
    tries: &'a mut [u32],
    lent: usize,
}

// Builds in what is lent of the element lists, and in the list of tries. (Over the rows and not `Builds`: a part of a list behind two
// references is not covered by the check.)
fn build(
    kind: Kind,
    levels: u32,
    rules: &Rules,
    scratch: &mut [u64],
    rows: &mut ElementRows,
    list: &mut [u32],
) -> Result<RuleRecord, Refusal> {
    let held = rules.held;
    let lent = rows.lent;
    let mut rows = RowsMut {
        hop: front_mut(rows.hops, lent.hops),
        length: front_mut(rows.lengths, lent.lengths),
        link: front_mut(rows.links, lent.links),
        stride: front_mut(rows.strides, lent.strides),
    };
    build_rules(
        kind,
        held.width,
        levels,
        held.links,
        rules.lent(),
        scratch,
        &mut rows,
        list,
    )
}

impl Builds<'_> {
    // The list of tries, as far as it is lent.
    fn list(&self) -> &[u32] {
        front(self.tries, self.lent)
    }

    // Whether an element list, or the list of tries, is longer than that.
    fn is_longer(lists: FourLengths, list: usize, rows: usize, numbers: usize) -> bool {
        numbers < list || lists.is_past(rows)
    }

    // Other rules for the builds below; the record and its lists stay.
    fn rules_line(&mut self, out: &impl Print, text: &mut Text) -> io::Result<()> {
        let mut rest = *text;
        let held = Held::read(&mut rest);
        if self.rules.is_unfit(rest, held) {
            return bad_line(out, text);
        }
        *text = rest;
        self.rules.held = held;
        self.rules.read(text);
        print!(out; "rules")
    }

    // What is printed of a build in so many places of scratch.
    fn say_built(&self, out: &impl Print, words: usize) -> io::Result<()> {
        let elements = self.record.elements;
        let nines = cases::count(self.list(), 0, &9);
        say_trie_record(out, self.record.dest)?;
        print!(out; " all {elements}")?;
        say_scratch(out, front(self.scratch, words))?;
        say_kept_rows(out, elements as usize, lent_rows(&self.rows))?;
        print!(out; " nines {nines}")
    }

    // Lends as many places of scratch and of the lists as the line says.
    fn build_line(&mut self, out: &impl Print, text: &mut Text, kind: Kind) -> io::Result<()> {
        let mut rest = *text;
        let levels = rest.held();
        let words = rest.number() as usize;
        let lists = FourLengths::read(&mut rest);
        let list = rest.number() as usize;
        let longer = Builds::is_longer(lists, list, self.rows.hops.len(), self.tries.len());
        if self.scratch.len() < words || longer {
            return bad_line(out, text);
        }
        *text = rest;
        self.rows.lent = lists;
        self.lent = list;
        front_mut(self.scratch, words).fill(7);
        front_mut(self.tries, list).fill(9);
        mark_rows(&mut self.rows);
        let scratch = front_mut(self.scratch, words);
        let numbers = front_mut(self.tries, list);
        let built = build(kind, levels, &self.rules, scratch, &mut self.rows, numbers);
        self.record = built.unwrap_or_default();
        say_outcome(out, built)?;
        self.say_built(out, words)
    }

    // Whether the rows or the numbers that the text gives next are more than the room, or a list is longer than what is given for it.
    // The numbers stand behind the rows, which are passed over and not kept, so that a bad line changes nothing.
    fn is_unfit(&self, text: Text, lists: FourLengths, list: usize) -> bool {
        let mut text = text;
        let rows = text.number() as usize;
        if self.rows.hops.len() < rows {
            return true;
        }
        text.pass_rows(rows);
        let numbers = text.number() as usize;
        self.tries.len() < numbers || Builds::is_longer(lists, list, rows, numbers)
    }

    // Reads how many numbers there are for the list of tries, then the numbers, as many as it has places. (bitmap_cases' `read_hops` is the
    // same of hops: one of both would be a public call with a clause and a definition, for these four lines.)
    fn read_list(&mut self, text: &mut Text) {
        let count = text.number() as usize;
        for number in self.tries.iter_mut().take(count) {
            *number = text.held();
        }
    }

    // A record, rows and a list of tries of its own: behind the destinations' record stands the E of all tries.
    fn record_line(&mut self, out: &impl Print, text: &mut Text) -> io::Result<()> {
        let mut rest = *text;
        let record = RuleRecord {
            dest: trie_record(&mut rest),
            elements: rest.held(),
        };
        let lists = FourLengths::read(&mut rest);
        let list = rest.number() as usize;
        if self.is_unfit(rest, lists, list) {
            return bad_line(out, text);
        }
        *text = rest;
        self.record = record;
        self.rows.lent = lists;
        self.lent = list;
        self.rows.read(text);
        self.read_list(text);
        print!(out; "record")
    }

    // The rows of all tries, then the list of tries.
    fn print_line(&self, out: &impl Print, text: &mut Text) -> io::Result<()> {
        text.seek(b'\n', b'\n');
        say_elements(out, self.record.elements as usize, lent_rows(&self.rows))?;
        print!(out; " list")?;
        put_all(out, self.list())
    }

    // What the last record and its lists answer for a destination and a source.
    fn classify(&self, dest: u32, source: u32) -> Result<Verdict, LookupRefusal> {
        let rows = lent_rows(&self.rows);
        classify(self.record, rows, self.list(), dest, source)
    }

    // One destination and source.
    fn look(&self, out: &impl Print, text: &mut Text) -> io::Result<()> {
        let dest = text.held();
        let source = text.held();
        say_verdict(out, self.classify(dest, source))
    }

    // All sources below a number with one destination.
    fn sweep_sources(&self, out: &impl Print, dest: u32, sources: u32) -> io::Result<()> {
        for source in 0..sources {
            let short = Short(self.classify(dest, source));
            print!(out; " {short}")?;
        }
        Ok(())
    }

    // All destinations below a number, each with all sources below another.
    fn sweep(&self, out: &impl Print, text: &mut Text) -> io::Result<()> {
        let dests: u32 = text.held();
        let sources = text.held();
        print!(out; "sweep")?;
        for dest in 0..dests {
            self.sweep_sources(out, dest, sources)?;
        }
        Ok(())
    }
}

impl Program for Builds<'_> {
    fn line<W: Print>(&mut self, out: &W, text: &mut Text) -> io::Result<()> {
        text.seek(b'\n', b'\n');
        text.seek(b'!', b'~');
        match text.word() {
            b"rules" => self.rules_line(out, text),
            b"fixed" => self.build_line(out, text, Kind::Fixed),
            b"variable" => self.build_line(out, text, Kind::Variable),
            b"record" => self.record_line(out, text),
            b"print" => self.print_line(out, text),
            b"look" => self.look(out, text),
            b"sweep" => self.sweep(out, text),
            _ => bad_line(out, text),
        }
    }
}

// Before the first case: no rules, a record of zeros, no rows.
fn main(rt: HostRuntime) -> io::Result<()> {
    let mut page = cases::page();
    let mut dvals = cases::values();
    let mut dlens = cases::lengths();
    let mut svals = cases::values();
    let mut slens = cases::lengths();
    let mut actions = cases::hops();
    let mut scratch = cases::scratch();
    let mut row_hops = cases::row_hops();
    let mut row_lengths = cases::row_lengths();
    let mut row_links = cases::row_links();
    let mut row_strides = cases::row_strides();
    let mut tries = cases::list_of_tries();
    let mut builds = Builds {
        rules: Rules {
            held: Held::default(),
            dvals: &mut dvals,
            dlens: &mut dlens,
            svals: &mut svals,
            slens: &mut slens,
            actions: &mut actions,
        },
        scratch: &mut scratch,
        record: RuleRecord::default(),
        rows: ElementRows::new(
            &mut row_hops,
            &mut row_lengths,
            &mut row_links,
            &mut row_strides,
        ),
        tries: &mut tries,
        lent: 0,
    };
    run(&rt, &mut rt.stdin(), &mut page, &mut builds)
}
