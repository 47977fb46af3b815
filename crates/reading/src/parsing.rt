// The whole text (01, "The tablet program"): what its sheet says, or its first bad line. The lists are of one size, so that any text is
// read.
ghost use Rattle.std.specs.Prelude.{◌≡◌, ◌+◌, ◌≤◌, IfOk, IfErr};
ghost use Rattle.reading.specs.Limits.{COUNT, LINES};
ghost use Rattle.reading.specs.Lines.{spot_at};
ghost use Rattle.reading.specs.Contents.{TextHolds};
ghost use Rattle.reading.specs.Text.{text_start, HeadTook, text_of, contents_of};

use crate::limits::{COUNT, NUMBER, NUMBER_DIGITS, SHORT};
use crate::lines::{BadLine, Lines};
use choosers::Kind;

// The first five lines.
#[derive(Clone, Copy)]
pub(crate) struct Head {
    pub(crate) width: u32,
    pub(crate) kind: Kind,
    pub(crate) levels: u32,
    pub(crate) links: u16,
    pub(crate) entries: usize,
}

// What the sheet of a good text says. The lists begin with the entries (bits as a number, how many bits, hop) and the queries (address,
// how many digits), and the places after them are 0. They are arrays of one size, with their counts beside them: nothing here is on the
// heap, and each place is promised.
#[derive(Clone, Copy)]
pub struct Contents {
    pub width: u32,
    pub kind: Kind,
    pub levels: u32,
    pub links: u16,
    pub entries: usize,
    pub queries: usize,
    pub bits: [u32; COUNT as usize],
    pub lengths: [u8; COUNT as usize],
    pub hops: [u16; COUNT as usize],
    pub addresses: [u32; COUNT as usize],
    pub places: [u8; COUNT as usize],
}

impl Lines<'_> {
    // The first five lines, of a text of which none was read yet.
    fn head(&mut self) -> Result<Head, BadLine>
        requires { spot_at self.old.at self.old.line ≡ text_start }
        ensures took { HeadTook self.old.text.now result (spot_at self.new.at self.new.line) }
        ensures few { IfOk result (λ h. h.entries ≤ COUNT) }
        ensures text { self.new.text ≡ self.old.text }
    {
        // Each number is at most its line's limit, so no cast loses any of it.
        let width = self.number(b"width=", NUMBER_DIGITS, NUMBER)? as u32;
        let kind = self.kind()?;
        let levels = self.number(b"levels=", NUMBER_DIGITS, NUMBER)? as u32;
        let links = self.number(b"links=", NUMBER_DIGITS, SHORT)? as u16;
        let entries = self.number(b"entries=", NUMBER_DIGITS, COUNT)? as usize;
        Ok(Head {
            width,
            kind,
            levels,
            links,
            entries,
        })
    }
}

// Reads a text of any bytes: what its sheet says, or its first bad line. A text is good where it is that of a sheet, byte by byte.
pub fn read(text: &[u8]) -> Result<Contents, BadLine>
    ensures exact { result ≡ contents_of (text_of text.now) }
    ensures meaning { TextHolds text.now result }
    ensures few { IfErr result (λ b. b.line ≤ LINES + 1) }
{
    let mut lines = Lines::new(text);
    let head = lines.head()?;
    let mut bits = [0u32; COUNT as usize];
    let mut lengths = [0u8; COUNT as usize];
    let mut hops = [0u16; COUNT as usize];
    lines.entries(head.entries, &mut bits, &mut lengths, &mut hops)?;
    let queries = lines.number(b"queries=", NUMBER_DIGITS, COUNT)? as usize;
    let mut addresses = [0u32; COUNT as usize];
    let mut places = [0u8; COUNT as usize];
    lines.queries(queries, &mut addresses, &mut places)?;
    lines.end()?;
    Ok(Contents {
        width: head.width,
        kind: head.kind,
        levels: head.levels,
        links: head.links,
        entries: head.entries,
        queries,
        bits,
        lengths,
        hops,
        addresses,
        places,
    })
}
