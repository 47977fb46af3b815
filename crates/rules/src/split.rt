// The tables of all tries, as a build holds them: the destinations in lists of their own, with the numbers of their source tries for
// hops, and the sources of destination g in the parts of the rules' lists from place `first[g]` to before `first[g + 1]`. And what all
// tries are built by: kind, width and level limit. (That the tables passed their tests stands in each contract: tried as a ghost field, and
// no proof was found that the order of a table has one proof only, as the type of such a field must.)
ghost use Rattle.std.specs.Prelude.{◌≡◌, ◌<◌, length, suc};
ghost use Rattle.rules.specs.Tables.{listed_in, tables};
ghost use Rattle.rules.specs.Splitting.{split_table, CanSplit};

use choosers::Kind;
use table::Entries;

#[derive(Clone, Copy)]
pub(crate) struct Split<'a> {
    pub(crate) kind: Kind,
    pub(crate) width: u32,
    pub(crate) levels: u32,
    pub(crate) first: &'a [u16],
    pub(crate) destinations: Entries<'a>,
    pub(crate) sources: Entries<'a>,
}

impl<'a> Split<'a> {
    // The table of the sources of destination g.
    pub(crate) fn part(&self, g: usize) -> Entries<'a>
        requires can_split { CanSplit self.now.width self.now.levels (tables self.now) }
        requires in_bounds { g < length self.now.destinations.value.now }
        ensures { listed_in result ≡ split_table (tables self.now) (suc g) }
    {
        let from = usize::from(self.first[g]);
        let to = usize::from(self.first[g + 1]);
        let Entries { value, length, hop } = self.sources;
        Entries {
            value: &value[from..to],
            length: &length[from..to],
            hop: &hop[from..to],
        }
    }
}
