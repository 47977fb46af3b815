// Element rows: four lent lists, of which the shortest counts. A lookup reads them, a build writes them. (Lists and not one of structs: 01
// has them so, and C lends them. 0 is no hop and no link, as 01 has the rows.)
ghost use Rattle.std.specs.Prelude.{◌≡◌};

#[derive(Clone, Copy)]
pub struct Rows<'a> {
    pub hop: &'a [u16],
    pub length: &'a [u8],
    pub link: &'a [u32],
    pub stride: &'a [u8],
}

impl<'a> Rows<'a> {
    ghost use Rattle.walk.specs.Lent.{lent};
    ghost use Rattle.walk.specs.Rows.{shortest};

    // The rows that all four lists have.
    pub fn len(self) -> usize
        ensures { result ≡ shortest (lent self.entry) }
    {
        self.hop
            .len()
            .min(self.length.len())
            .min(self.link.len())
            .min(self.stride.len())
    }
}

// The same, lent to be written.
#[derive(Drop)]
pub struct RowsMut<'a> {
    pub hop: &'a mut [u16],
    pub length: &'a mut [u8],
    pub link: &'a mut [u32],
    pub stride: &'a mut [u8],
}

impl RowsMut<'_> {
    ghost use Rattle.walk.specs.Lent.{held, lent};
    ghost use Rattle.walk.specs.Rows.{shortest};

    // The rows as they are now, to be read.
    pub fn rows(&self) -> Rows<'_>
        ensures { lent result ≡ held self.now }
    {
        Rows {
            hop: self.hop,
            length: self.length,
            link: self.link,
            stride: self.stride,
        }
    }

    // The rows that all four lists have.
    pub fn len(&self) -> usize
        ensures { result ≡ shortest (held self.now) }
    {
        self.rows().len()
    }
}
