// A table's line: the width, the number of links, the lengths of the three lists, and the entries (value/length>hop), for this line
// and those below it.
ghost use Rattle.std.specs.Prelude.{◌≡◌, length, take};
ghost use Rattle.cases.specs.Lists.{bad_table};

use crate::fronts::front;
use crate::lists::ThreeLengths;
use crate::text::Text;

// The width and the number of links of a table, and how many places of each list it has; zeros before the first of a text.
#[derive(Clone, Copy, Default)]
pub struct Held {
    pub width: u32,
    pub links: u16,
    pub values: usize,
    pub lengths: usize,
    pub hops: usize,
}

// The table of the lines below, and the lists lent as room for its entries. (A length beside each: past it stand entries of lines before,
// which a later line may lend again.)
#[derive(Drop)]
pub struct Table<'a> {
    pub held: Held,
    pub values: &'a mut [u32],
    pub lengths: &'a mut [u8],
    pub hops: &'a mut [u16],
}

// Whether a list of the line is longer than its entries, or these are more than so much room.
pub fn is_bad_table(text: Text, room: usize) -> bool
    ensures { result ≡ bad_table text.entry.bytes.now text.entry.at room }
{
    let mut text = text;
    text.number();
    text.number();
    let lists = ThreeLengths::read(&mut text);
    lists.is_unfit(text, room)
}

impl<'a> Table<'a> {
    ghost use Rattle.cases.specs.Lent.{SameTable};
    ghost use Rattle.cases.specs.Tables.{Holds, no_table};
    ghost use Rattle.cases.specs.Triples.{Reads};

    // No table yet, over lists of any lengths.
    pub fn new(values: &'a mut [u32], lengths: &'a mut [u8], hops: &'a mut [u16]) -> Table<'a>
        ensures held { result.held ≡ no_table }
        ensures values { result.values ≡ values.entry }
        ensures lengths { result.lengths ≡ lengths.entry }
        ensures hops { result.hops ≡ hops.entry }
    {
        Table {
            held: Held::default(),
            values,
            lengths,
            hops,
        }
    }

    // The three lists of the table.
    pub fn values(&self) -> &[u32]
        ensures { result.now ≡ take self.now.held.values self.now.values.now }
    {
        front(self.values, self.held.values)
    }

    pub fn lengths(&self) -> &[u8]
        ensures { result.now ≡ take self.now.held.lengths self.now.lengths.now }
    {
        front(self.lengths, self.held.lengths)
    }

    pub fn hops(&self) -> &[u16]
        ensures { result.now ≡ take self.now.held.hops self.now.hops.now }
    {
        front(self.hops, self.held.hops)
    }

    // The same, of the room that the table has.
    pub fn is_bad(&self, text: Text) -> bool
        ensures { result ≡ bad_table text.entry.bytes.now text.entry.at (length self.now.values.now) }
    {
        is_bad_table(text, self.values.len())
    }

    // Reads how many entries there are, then the entries, as many as the shortest list has places. (By index: the clause speaks of row i.)
    fn entries(&mut self, text: &mut Text)
        ensures same { SameTable self.old self.new }
        ensures lists { Reads text.old.bytes.now text.old.at self.old.values.now self.old.lengths.now self.old.hops.now
            self.new.values.now self.new.lengths.now self.new.hops.now text.new.at }
        ensures text { text.new.bytes ≡ text.old.bytes }
    {
        let count = text.number() as usize;
        let room = self.lengths.len().min(self.hops.len());
        for i in 0..count.min(self.values.len().min(room)) {
            self.values[i] = text.held();
            self.lengths[i] = text.held();
            self.hops[i] = text.held();
        }
    }

    // The table of a line.
    pub fn read(&mut self, text: &mut Text)
        ensures same { SameTable self.old self.new }
        ensures holds { Holds text.old.bytes.now text.old.at self.old.values.now self.old.lengths.now self.old.hops.now
            self.new.values.now self.new.lengths.now self.new.hops.now self.new.held text.new.at }
        ensures text { text.new.bytes ≡ text.old.bytes }
    {
        let width = text.held();
        let links = text.held();
        let lists = ThreeLengths::read(text);
        self.entries(text);
        self.held = Held {
            width,
            links,
            values: lists.first,
            lengths: lists.second,
            hops: lists.third,
        };
    }
}
