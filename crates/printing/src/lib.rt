// What the vector programs read and print alike: a run's text and its lines, a table's lines, an outcome, strides, a trie's record, what
// a lent scratch holds, element rows and the marks kept past them, and what a lookup answers.
// What is printed has no contract: each call that prints is proved safe and ending, and the bytes are compared with the reference's. What a
// line leaves of its text and its table has one. Answers are said by functions: their types are other crates', which print nothing.
#![tactic(auto)]

ghost use Rattle.std.specs.Io.{ReadsAtMost};
ghost use Rattle.std.specs.Prelude.{◌≡◌, ◌≤◌, IfOk, false, length, take, true};
ghost use Rattle.table.specs.Refusals.{refusal_detail, refusal_number};
ghost use Rattle.walk.specs.Told.{lookup_refusal_number};
ghost use Rattle.cases.specs.Lent.{SameRows, SameTable};
ghost use Rattle.cases.specs.Lists.{bad_table};
ghost use Rattle.cases.specs.Rising.{bad_rising};
ghost use Rattle.printing.specs.Lines.{HoldsLine, RisenLine, bad_for, passed};

use cases::{ElementRows, Table, Text, front, front_mut};
use std::io::Read;
use std::{fmt, io};
use table::{Entries, Refusal};
use walk::{Answer, LEVELS, LookupRefusal, Record, Rows};

// A program over the lines of a text.
pub trait Program {
    fn line<W: Print>(&mut self, out: &W, text: &mut Text) -> io::Result<()>;
}

// Reads until the page is full or the text ends, and answers how many bytes then stand on the page. (By hand: std's `read_to_end` goes on
// past the page, and says little after an error. tablet reads alike by itself: no crate of the vector programs is below it.)
pub fn read_page(input: &mut impl Read, page: &mut [u8]) -> io::Result<usize>
    ensures { ReadsAtMost result page.new }
{
    let mut n = 0;
    while n < page.len() {
        let got = input.read(&mut page[n..])?;
        if got == 0 {
            break;
        }
        n += got;
    }
    Ok(n)
}

// The text of a run, as far as the page that is lent goes.
pub fn read_text<'a>(input: &mut impl Read, page: &'a mut [u8]) -> io::Result<&'a [u8]>
    ensures { IfOk result (λ bytes. length bytes.now ≤ length page.old) }
{
    let n = read_page(input, page)?;
    Ok(front(page, n))
}

// Runs the lines of a text: first their number, then one after another, with a line of output each.
pub fn run_lines<W: Print, P: Program>(out: &W, bytes: &[u8], program: &mut P) -> io::Result<()> {
    let mut text = Text::new(bytes);
    let count = text.number();
    for _ in 0..count {
        program.line(out, &mut text)?;
        print!(out; "\n")?;
    }
    Ok(())
}

// Runs the text of an input, which is read onto the page that is lent. One that fills it is answered `text too long`.
pub fn run<W: Print, P: Program>(
    out: &W,
    input: &mut impl Read,
    page: &mut [u8],
    program: &mut P,
) -> io::Result<()> {
    let room = page.len();
    let bytes = read_text(input, page)?;
    if bytes.len() == room {
        return print!(out; "text too long\n");
    }
    run_lines(out, bytes, program)
}

// Says that the line is bad, and passes it over.
pub fn bad_line(out: &impl Print, text: &mut Text) -> io::Result<()>
    ensures { text.new ≡ passed text.old }
{
    text.seek(b'\n', b'\n');
    print!(out; "bad line")
}

// Another table for the lines below.
pub fn table_line(out: &impl Print, text: &mut Text, table: &mut Table) -> io::Result<()>
    ensures text { text.new.bytes ≡ text.old.bytes }
    ensures same { SameTable table.old table.new }
    ensures bad { bad_for bad_table text.old table.old ≡ true → (text.new ≡ passed text.old) × (table.new ≡ table.old) }
    ensures taken { bad_for bad_table text.old table.old ≡ false → HoldsLine text.old table.old text.new table.new }
{
    if table.is_bad(*text) {
        return bad_line(out, text);
    }
    table.read(text);
    print!(out; "table")
}

// The same of a table that the line has made.
pub fn rising_line(out: &impl Print, text: &mut Text, table: &mut Table) -> io::Result<()>
    ensures text { text.new.bytes ≡ text.old.bytes }
    ensures same { SameTable table.old table.new }
    ensures bad { bad_for bad_rising text.old table.old ≡ true → (text.new ≡ passed text.old) × (table.new ≡ table.old) }
    ensures taken { bad_for bad_rising text.old table.old ≡ false → RisenLine text.old table.old text.new table.new }
{
    if table.is_bad_rising(*text) {
        return bad_line(out, text);
    }
    table.rise(text);
    print!(out; "rising")
}

// A trie's record: of its strides all but the first are the last number.
pub fn trie_record(text: &mut Text) -> Record
    ensures { text.new.bytes ≡ text.old.bytes }
{
    let width = text.held();
    let levels = text.held();
    let elements = text.held();
    let floor = text.held();
    let stride = text.held();
    let mut strides = [text.held(); LEVELS as usize];
    strides[0] = stride;
    Record {
        width,
        levels,
        elements,
        floor,
        strides,
    }
}

// What is lent of a table.
pub fn entries<'a>(table: &'a Table) -> Entries<'a>
    ensures value { result.value.now ≡ take table.now.held.values table.now.values.now }
    ensures length { result.length.now ≡ take table.now.held.lengths table.now.lengths.now }
    ensures hop { result.hop.now ≡ take table.now.held.hops table.now.hops.now }
{
    Entries {
        value: table.values(),
        length: table.lengths(),
        hop: table.hops(),
    }
}

// What is lent of element rows.
pub fn lent_rows<'a>(rows: &'a ElementRows) -> Rows<'a>
    ensures hop { result.hop.now ≡ take rows.now.lent.hops rows.now.hops.now }
    ensures length { result.length.now ≡ take rows.now.lent.lengths rows.now.lengths.now }
    ensures link { result.link.now ≡ take rows.now.lent.links rows.now.links.now }
    ensures stride { result.stride.now ≡ take rows.now.lent.strides rows.now.strides.now }
{
    Rows {
        hop: rows.hops(),
        length: rows.lengths(),
        link: rows.links(),
        stride: rows.strides(),
    }
}

// Each number of a list, after a blank.
pub fn put_all<T: fmt::Display>(out: &impl Print, numbers: &[T]) -> io::Result<()> {
    for n in numbers {
        print!(out; " {n}")?;
    }
    Ok(())
}

// What any refusal is said by: its number, and its detail where that is said. (A lookup's has none: 0.)
#[derive(Clone, Copy, Debug, PartialEq, Eq)]
pub struct RefusalNumbers {
    pub number: u32,
    pub detail: u64,
}

impl From<Refusal> for RefusalNumbers {
    ghost from_gives = { λ refusal numbers. (numbers.number ≡ refusal_number refusal) × (numbers.detail ≡ refusal_detail refusal) };

    fn from(refusal: Refusal) -> RefusalNumbers {
        RefusalNumbers {
            number: refusal.number(),
            detail: refusal.detail(),
        }
    }
}

impl From<LookupRefusal> for RefusalNumbers {
    ghost from_gives = { λ refusal numbers. (numbers.number ≡ lookup_refusal_number refusal) × (numbers.detail ≡ 0) };

    fn from(refusal: LookupRefusal) -> RefusalNumbers {
        RefusalNumbers::from(refusal.number())
    }
}

// A number alone, as `walk::answer_of` has it.
impl From<u32> for RefusalNumbers {
    ghost from_gives = { λ number numbers. (numbers.number ≡ number) × (numbers.detail ≡ 0) };

    fn from(number: u32) -> RefusalNumbers {
        RefusalNumbers { number, detail: 0 }
    }
}

pub fn say_refused(out: &impl Print, number: u32, detail: u64) -> io::Result<()> {
    print!(out; "refused {number} {detail}")
}

pub fn say_refusal<E: Into<RefusalNumbers>>(out: &impl Print, refusal: E) -> io::Result<()> {
    let numbers = refusal.into();
    say_refused(out, numbers.number, numbers.detail)
}

// Whether a call was accepted, whatever it answers then.
pub fn say_outcome<T: Copy, E: Into<RefusalNumbers>>(
    out: &impl Print,
    answer: Result<T, E>,
) -> io::Result<()> {
    match answer {
        Ok(_) => print!(out; "accepted"),
        Err(refusal) => say_refusal(out, refusal),
    }
}

pub fn say_strides(out: &impl Print, strides: &[u8]) -> io::Result<()> {
    print!(out; " strides")?;
    put_all(out, strides)
}

pub fn say_trie_record(out: &impl Print, record: Record) -> io::Result<()> {
    let width = record.width;
    let levels = record.levels;
    let elements = record.elements;
    let floor = record.floor;
    print!(out; " width {width} levels {levels} elements {elements} floor {floor}")?;
    say_strides(out, &record.strides)
}

// What scratch holds: the zeros that an accepted call leaves, and the sevens it was lent with.
pub fn say_scratch(out: &impl Print, scratch: &[u64]) -> io::Result<()> {
    let zeros = cases::count(scratch, 0, &0);
    let sevens = cases::count(scratch, 0, &7);
    print!(out; " zeros {zeros} sevens {sevens}")
}

// Fills what is lent of the element rows with marks: fives in the length list, nines in the others.
pub fn mark_rows(rows: &mut ElementRows)
    ensures same { SameRows rows.old rows.new }
    ensures lent { rows.new.lent ≡ rows.old.lent }
{
    let hops = rows.lent.hops.min(rows.hops.len());
    rows.hops[..hops].fill(9);
    let lengths = rows.lent.lengths.min(rows.lengths.len());
    rows.lengths[..lengths].fill(5);
    let links = rows.lent.links.min(rows.links.len());
    rows.links[..links].fill(9);
    let strides = rows.lent.strides.min(rows.strides.len());
    rows.strides[..strides].fill(9);
}

// The marks of the element rows from a place on, as a build should keep them: fives in the length list, nines in the others.
pub fn say_kept_rows(out: &impl Print, from: usize, rows: Rows) -> io::Result<()> {
    let hops = cases::count(rows.hop, from, &9);
    let lengths = cases::count(rows.length, from, &5);
    let links = cases::count(rows.link, from, &9);
    let strides = cases::count(rows.stride, from, &9);
    print!(out; " kept {hops} {lengths} {links} {strides}")
}

// Element rows 0 to E - 1, as far as the shortest list goes.
pub fn say_elements(out: &impl Print, elements: usize, rows: Rows) -> io::Result<()> {
    print!(out; "rows")?;
    let hops = rows.hop.iter();
    let all = hops.zip(rows.length).zip(rows.link).zip(rows.stride);
    for (((hop, length), link), stride) in all.take(elements) {
        print!(out; " {hop}/{length}/{link}/{stride}")?;
    }
    Ok(())
}

// What a lookup answers.
pub fn say_answer<E: Into<RefusalNumbers>>(
    out: &impl Print,
    answer: Result<Answer, E>,
) -> io::Result<()> {
    match answer {
        Ok(Answer::Match { hop, length, reads }) => print!(out;
            "match {hop} length {length} reads {reads}"
        ),
        Ok(Answer::Discard { length, reads }) => print!(out;
            "discard length {length} reads {reads}"
        ),
        Ok(Answer::NoRoute { reads }) => print!(out; "none reads {reads}"),
        Err(refusal) => {
            let number = refusal.into().number;
            print!(out; "refused {number}")
        }
    }
}

// An answer in short: hop/length/reads, d for a discard's hop, 0/reads for no route, or r and the number of the refusal.
#[derive(Clone, Copy)]
pub struct Short<E = LookupRefusal>(pub Result<Answer, E>);

impl<E: Copy + Into<RefusalNumbers>> fmt::Display for Short<E> {
    fn fmt<W: fmt::Write>(&self, f: &mut fmt::Formatter<W>) -> fmt::Result {
        match self.0 {
            Ok(Answer::Match { hop, length, reads }) => write!(f, "{hop}/{length}/{reads}"),
            Ok(Answer::Discard { length, reads }) => write!(f, "d/{length}/{reads}"),
            Ok(Answer::NoRoute { reads }) => write!(f, "0/{reads}"),
            Err(refusal) => {
                let number = refusal.into().number;
                write!(f, "r{number}")
            }
        }
    }
}

pub fn say_swept<E: Copy + Into<RefusalNumbers>>(
    out: &impl Print,
    answer: Result<Answer, E>,
) -> io::Result<()> {
    let short = Short(answer);
    print!(out; " {short}")
}

// What addresses are looked up in. (A trait and no `impl Fn`: a call of a closure has a `requires`, and no public call here has one.)
pub trait Lookup {
    fn lookup(&self, address: u32) -> Result<Answer, LookupRefusal>;
}

// The answers for all addresses below a number.
pub fn sweep(out: &impl Print, below: u32, rows: &impl Lookup) -> io::Result<()> {
    print!(out; "sweep")?;
    for address in 0..below {
        say_swept(out, rows.lookup(address))?;
    }
    Ok(())
}
