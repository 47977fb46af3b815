// The lengths of three lists as a line gives them, and whether they go with the rows that the line gives next.
ghost use Rattle.std.specs.Prelude.{◌≡◌};
ghost use Rattle.cases.specs.Triples.{third_at};

use crate::text::Text;

// The lengths, in the order of the line.
#[derive(Clone, Copy)]
pub struct ThreeLengths {
    pub first: usize,
    pub second: usize,
    pub third: usize,
}

impl ThreeLengths {
    ghost use Rattle.cases.specs.Lists.{is_longer, is_unfit, three_at};

    pub(crate) fn read(text: &mut Text) -> ThreeLengths
        ensures value { result ≡ three_at text.old.bytes.now text.old.at }
        ensures next { text.new ≡ record text.old { at = (third_at text.old.bytes.now text.old.at).next } }
    {
        ThreeLengths {
            first: text.number() as usize,
            second: text.number() as usize,
            third: text.number() as usize,
        }
    }

    // Whether one of the three lists is longer than that. (`is_past` is the same of four: the structs have other lists.)
    #[tactic(auto, unfolding(crate::specs::Lists::is_longer))]
    pub(crate) fn is_longer(self, than: usize) -> bool
        ensures { result ≡ is_longer self than }
    {
        [self.first, self.second, self.third]
            .iter()
            .any(|&n| than < n)
    }

    // Whether the rows that the text gives next are more than the room, or one of the three lists is longer than the rows.
    #[tactic(auto, unfolding(crate::specs::Lists::is_unfit))]
    pub(crate) fn is_unfit(self, mut text: Text, room: usize) -> bool
        ensures { result ≡ is_unfit text.entry.bytes.now text.entry.at self room }
    {
        let rows = text.number() as usize;
        room < rows || self.is_longer(rows)
    }
}
