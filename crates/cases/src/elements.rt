// The four element lists of a line: their lengths, and the rows (hop/length/link/stride) that a line gives for them.
ghost use Rattle.std.specs.Prelude.{◌≡◌, take};
ghost use Rattle.cases.specs.Triples.{fourth_at};

use crate::fronts::front;
use crate::text::Text;

// The lengths of the lists, zeros before the first of a text.
#[derive(Clone, Copy, Default)]
pub struct FourLengths {
    pub hops: usize,
    pub lengths: usize,
    pub links: usize,
    pub strides: usize,
}

// The lists lent as room for element rows, and how many places of each a line lends in turn. (A length beside each: past it stand rows
// of lines before, which a later line may lend again.)
#[derive(Drop)]
pub struct ElementRows<'a> {
    pub lent: FourLengths,
    pub hops: &'a mut [u16],
    pub lengths: &'a mut [u8],
    pub links: &'a mut [u32],
    pub strides: &'a mut [u8],
}

impl FourLengths {
    ghost use Rattle.cases.specs.Elements.{four_at, is_past};

    pub fn read(text: &mut Text) -> FourLengths
        ensures value { result ≡ four_at text.old.bytes.now text.old.at }
        ensures next { text.new ≡ record text.old { at = (fourth_at text.old.bytes.now text.old.at).next } }
    {
        FourLengths {
            hops: text.number() as usize,
            lengths: text.number() as usize,
            links: text.number() as usize,
            strides: text.number() as usize,
        }
    }

    // Whether one of the four lists is longer than that. (Each struct of lengths has such a test of its own: they have other lists.)
    #[tactic(auto, unfolding(crate::specs::Elements::is_past))]
    pub fn is_past(self, than: usize) -> bool
        ensures { result ≡ is_past self than }
    {
        let lists = [self.hops, self.lengths, self.links, self.strides];
        lists.iter().any(|&n| than < n)
    }
}

impl<'a> Text<'a> {
    ghost use Rattle.cases.specs.Elements.{element_place};

    // Goes on past so many rows of four numbers.
    pub fn pass_rows(&mut self, rows: usize)
        ensures { self.new ≡ record self.old { at = element_place self.old.bytes.now self.old.at rows } }
    {
        for row in 0..rows {
            FourLengths::read(self);
        }
    }
}

impl<'a> ElementRows<'a> {
    ghost use Rattle.cases.specs.Elements.{ElementsRead, no_lists};
    ghost use Rattle.cases.specs.Lent.{SameRows};

    // Nothing lent yet, over lists of any lengths.
    pub fn new(
        hops: &'a mut [u16],
        lengths: &'a mut [u8],
        links: &'a mut [u32],
        strides: &'a mut [u8],
    ) -> ElementRows<'a>
        ensures lent { result.lent ≡ no_lists }
        ensures hops { result.hops ≡ hops.entry }
        ensures lengths { result.lengths ≡ lengths.entry }
        ensures links { result.links ≡ links.entry }
        ensures strides { result.strides ≡ strides.entry }
    {
        ElementRows {
            lent: FourLengths::default(),
            hops,
            lengths,
            links,
            strides,
        }
    }

    // What is lent of each list.
    pub fn hops(&self) -> &[u16]
        ensures { result.now ≡ take self.now.lent.hops self.now.hops.now }
    {
        front(self.hops, self.lent.hops)
    }

    pub fn lengths(&self) -> &[u8]
        ensures { result.now ≡ take self.now.lent.lengths self.now.lengths.now }
    {
        front(self.lengths, self.lent.lengths)
    }

    pub fn links(&self) -> &[u32]
        ensures { result.now ≡ take self.now.lent.links self.now.links.now }
    {
        front(self.links, self.lent.links)
    }

    pub fn strides(&self) -> &[u8]
        ensures { result.now ≡ take self.now.lent.strides self.now.strides.now }
    {
        front(self.strides, self.lent.strides)
    }

    // Reads how many rows there are, then the rows, as many as the shortest list has places. (By index: the clause speaks of row i.)
    pub fn read(&mut self, text: &mut Text)
        ensures same { SameRows self.old self.new }
        ensures rows { ElementsRead text.old.bytes.now text.old.at self.old.hops.now self.old.lengths.now self.old.links.now
            self.old.strides.now self.new.hops.now self.new.lengths.now self.new.links.now self.new.strides.now text.new.at }
        ensures text { text.new.bytes ≡ text.old.bytes }
        ensures lent { self.new.lent ≡ self.old.lent }
    {
        let count = text.number() as usize;
        let room = self.hops.len().min(self.lengths.len());
        let room = room.min(self.links.len().min(self.strides.len()));
        for i in 0..count.min(room) {
            self.hops[i] = text.held();
            self.lengths[i] = text.held();
            self.links[i] = text.held();
            self.strides[i] = text.held();
        }
    }
}
