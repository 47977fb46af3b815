// Rows of supernodes in lent lists, of which the shortest counts: internal map, external map, first-child and first-hop number; and the
// hops in a list of their own. A lookup reads them, a build writes them. (Lists and not one of structs: 02 has them so, and C lends them.)
ghost use Rattle.std.specs.Prelude.{◌≡◌};

#[derive(Clone, Copy)]
pub struct Supernodes<'a> {
    pub internal: &'a [u16],
    pub external: &'a [u16],
    pub child: &'a [u32],
    pub first: &'a [u32],
    pub hops: &'a [u16],
}

impl<'a> Supernodes<'a> {
    ghost use Rattle.visits.specs.Lent.{lent};
    ghost use Rattle.visits.specs.Rows.{row_room};

    // The rows that all four lists have.
    pub fn len(self) -> usize
        ensures { result ≡ row_room (lent self.entry) }
    {
        let maps = self.internal.len().min(self.external.len());
        maps.min(self.child.len().min(self.first.len()))
    }
}

// The same, lent to be written.
#[derive(Drop)]
pub struct SupernodesMut<'a> {
    pub internal: &'a mut [u16],
    pub external: &'a mut [u16],
    pub child: &'a mut [u32],
    pub first: &'a mut [u32],
    pub hops: &'a mut [u16],
}

impl SupernodesMut<'_> {
    ghost use Rattle.visits.specs.Lent.{held, lent};
    ghost use Rattle.visits.specs.Rows.{row_room};

    // The rows and hops as they are now, to be read.
    pub fn rows(&self) -> Supernodes<'_>
        ensures rows { lent result ≡ held self.now }
        ensures hops { result.hops.now ≡ self.now.hops.now }
    {
        Supernodes {
            internal: self.internal,
            external: self.external,
            child: self.child,
            first: self.first,
            hops: self.hops,
        }
    }

    // The rows that all four lists have.
    pub fn len(&self) -> usize
        ensures { result ≡ row_room (held self.now) }
    {
        self.rows().len()
    }
}
