// The five lists of supernodes: how many places of each a line lends, and the rows of four numbers, then the hops, that a `record` line
// gives for them.
use cases::{Table, Text, front, front_mut};
use printing::entries;
use supernodes::build_bitmap;
use table::Refusal;
use visits::{Bitmap, Supernodes, SupernodesMut};

// The lengths of the four lists of rows and of the hop list; zeros before the first of a text.
#[derive(Clone, Copy, Default)]
pub(crate) struct Lengths {
    pub internal: usize,
    pub external: usize,
    pub child: usize,
    pub first: usize,
    pub hops: usize,
}

impl Lengths {
    pub(crate) fn read(text: &mut Text) -> Lengths {
        Lengths {
            internal: text.number() as usize,
            external: text.number() as usize,
            child: text.number() as usize,
            first: text.number() as usize,
            hops: text.number() as usize,
        }
    }

    // Whether a list of rows, or the hop list, is longer than that. (Each struct of lengths has such a test of its own: they have other
    // lists.)
    pub(crate) fn is_longer(self, rows: usize, hops: usize) -> bool {
        let lists = [self.internal, self.external, self.child, self.first];
        hops < self.hops || lists.iter().any(|&n| rows < n)
    }
}

// The lists lent as room for supernodes, and how many places of each a line lends in turn. (A length beside each: past it stand rows of
// lines before, which a later line may lend again.)
#[derive(Drop)]
pub(crate) struct Room<'a> {
    pub lent: Lengths,
    pub internal: &'a mut [u16],
    pub external: &'a mut [u16],
    pub child: &'a mut [u32],
    pub first: &'a mut [u32],
    pub hops: &'a mut [u16],
}

impl Room<'_> {
    // What is lent of the five lists.
    pub(crate) fn rows(&self) -> Supernodes<'_> {
        let lent = self.lent;
        Supernodes {
            internal: front(self.internal, lent.internal),
            external: front(self.external, lent.external),
            child: front(self.child, lent.child),
            first: front(self.first, lent.first),
            hops: front(self.hops, lent.hops),
        }
    }

    // Builds in what is lent of the five lists.
    pub(crate) fn build(&mut self, table: &Table, scratch: &mut [u64]) -> Result<Bitmap, Refusal> {
        let held = table.held;
        let lent = self.lent;
        let mut rows = SupernodesMut {
            internal: front_mut(self.internal, lent.internal),
            external: front_mut(self.external, lent.external),
            child: front_mut(self.child, lent.child),
            first: front_mut(self.first, lent.first),
            hops: front_mut(self.hops, lent.hops),
        };
        build_bitmap(held.width, held.links, entries(table), scratch, &mut rows)
    }

    // Fills what is lent with nines.
    pub(crate) fn mark(&mut self) {
        front_mut(self.internal, self.lent.internal).fill(9);
        front_mut(self.external, self.lent.external).fill(9);
        front_mut(self.child, self.lent.child).fill(9);
        front_mut(self.first, self.lent.first).fill(9);
        front_mut(self.hops, self.lent.hops).fill(9);
    }

    // Whether the rows or the hops that the text gives next are more than the room, or a list is longer than what is given for it.
    // The hops stand behind the rows, which are passed over and not kept, so that a bad line changes nothing.
    pub(crate) fn is_unfit(&self, text: Text, lengths: Lengths) -> bool {
        let mut text = text;
        let rows = text.number() as usize;
        if self.internal.len() < rows {
            return true;
        }
        text.pass_rows(rows);
        let hops = text.number() as usize;
        self.hops.len() < hops || lengths.is_longer(rows, hops)
    }

    // Reads how many rows there are, then the rows, as many as the shortest list has places.
    pub(crate) fn read_rows(&mut self, text: &mut Text) {
        let count = text.number() as usize;
        let maps = self.internal.iter_mut().zip(self.external.iter_mut());
        let numbers = self.child.iter_mut().zip(self.first.iter_mut());
        for ((internal, external), (child, first)) in maps.zip(numbers).take(count) {
            *internal = text.held();
            *external = text.held();
            *child = text.held();
            *first = text.held();
        }
    }

    // The same of the hops. (rule_cases' `read_list` is the same of numbers: one of both would be a public call with a clause and a
    // definition, for these four lines.)
    pub(crate) fn read_hops(&mut self, text: &mut Text) {
        let count = text.number() as usize;
        for hop in self.hops.iter_mut().take(count) {
            *hop = text.held();
        }
    }
}
