// The rules of the lines below.
use cases::{Text, front};
use fields::RuleLists;

// The width and the number of links of the rules, and how many places of each list they have; zeros before the first of a text.
#[derive(Clone, Copy, Default)]
pub(crate) struct Held {
    pub width: u32,
    pub links: u16,
    pub dvals: usize,
    pub dlens: usize,
    pub svals: usize,
    pub slens: usize,
    pub actions: usize,
}

impl Held {
    pub(crate) fn read(text: &mut Text) -> Held {
        Held {
            width: text.held(),
            links: text.held(),
            dvals: text.number() as usize,
            dlens: text.number() as usize,
            svals: text.number() as usize,
            slens: text.number() as usize,
            actions: text.number() as usize,
        }
    }

    // Whether one of the five lists is longer than that. (Each struct of lengths has such a test of its own: they have other lists.)
    pub(crate) fn is_longer(self, than: usize) -> bool {
        let lists = [self.dvals, self.dlens, self.svals, self.slens, self.actions];
        lists.iter().any(|&n| than < n)
    }
}

// What a line says of the rules, and the lists lent as room for them. (A length beside each: past it stand rules of lines before, which a
// later line may lend again.)
#[derive(Drop)]
pub(crate) struct Rules<'a> {
    pub held: Held,
    pub dvals: &'a mut [u32],
    pub dlens: &'a mut [u8],
    pub svals: &'a mut [u32],
    pub slens: &'a mut [u8],
    pub actions: &'a mut [u16],
}

impl Rules<'_> {
    // What is lent of the five lists.
    pub(crate) fn lent(&self) -> RuleLists<'_> {
        let held = self.held;
        RuleLists {
            dvals: front(self.dvals, held.dvals),
            dlens: front(self.dlens, held.dlens),
            svals: front(self.svals, held.svals),
            slens: front(self.slens, held.slens),
            actions: front(self.actions, held.actions),
        }
    }

    // Whether the rules that the text gives next are more than the room, or one of the five lists is longer than they are.
    pub(crate) fn is_unfit(&self, text: Text, held: Held) -> bool {
        let mut text = text;
        let rules = text.number() as usize;
        self.dvals.len() < rules || held.is_longer(rules)
    }

    // Reads how many rules there are, then the rules, as many as the shortest list has places.
    pub(crate) fn read(&mut self, text: &mut Text) {
        let count = text.number() as usize;
        let destinations = self.dvals.iter_mut().zip(self.dlens.iter_mut());
        let sources = self.svals.iter_mut().zip(self.slens.iter_mut());
        let rules = destinations.zip(sources).zip(self.actions.iter_mut());
        for (((dval, dlen), (sval, slen)), action) in rules.take(count) {
            *dval = text.held();
            *dlen = text.held();
            *sval = text.held();
            *slen = text.held();
            *action = text.held();
        }
    }
}
