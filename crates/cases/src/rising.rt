// A table that its line makes itself: listed, 65,536 entries would take a mebibyte of text. The line gives the width, the number of
// links, how many entries, and the length of each.
ghost use Rattle.std.specs.Prelude.{◌≡◌, ◌-◌, ◌^◌, ◌≤◌, length, min};
ghost use Rattle.cases.specs.Limits.{step_cap};
ghost use Rattle.cases.specs.Rising.{Climbs, bad_rising};

use crate::limits::{LAST_HOP, STEP_CAP, VALUE_BITS};
use crate::numbers::Number;
use crate::tables::{Held, Table};
use crate::text::Text;

// How far a value lies above the one before: 2^(width - bits). From 2^32 on the second value is past 32 bits whatever the step is.
fn step_of(width: u32, bits: u8) -> u64
    ensures { result ≡ min (2 ^ (width - bits)) step_cap }
{
    let past = width.saturating_sub(u32::from(bits));
    if past < VALUE_BITS {
        return 1 << past;
    }
    STEP_CAP
}

// Entries from the first on: `count` of them, or as many as the shortest list has places. (Over the three lists and not the
// table: through it the loop asks anew at each entry where they lie. By index: the clause speaks of entry i.)
fn climb(
    count: usize,
    step: u64,
    bits: u8,
    values: &mut [u32],
    lengths: &mut [u8],
    hops: &mut [u16],
)
    requires { step ≤ step_cap }
    ensures { Climbs count step bits values.old lengths.old hops.old values.new lengths.new
        hops.new }
{
    let room = values.len().min(lengths.len().min(hops.len()));
    let mut value: u32 = 0;
    for i in 0..count.min(room) {
        values[i] = value;
        lengths[i] = bits;
        hops[i] = (i % LAST_HOP) as u16 + 1;
        value = u32::held(u64::from(value) + step);
    }
}

// Whether the line's entries are more than so much room.
pub fn is_bad_rising(text: Text, room: usize) -> bool
    ensures { result ≡ bad_rising text.entry.bytes.now text.entry.at room }
{
    let mut text = text;
    text.number();
    text.number();
    room < text.number() as usize
}

impl Table<'_> {
    ghost use Rattle.cases.specs.Lent.{SameTable};
    ghost use Rattle.cases.specs.Rising.{Risen};

    // The table that a line makes.
    pub fn rise(&mut self, text: &mut Text)
        ensures same { SameTable self.old self.new }
        ensures risen { Risen text.old.bytes.now text.old.at self.old.values.now self.old.lengths.now self.old.hops.now
            self.new.values.now self.new.lengths.now self.new.hops.now self.new.held text.new.at }
        ensures text { text.new.bytes ≡ text.old.bytes }
    {
        let width = text.held();
        let links = text.held();
        let count = text.number() as usize;
        let bits = text.held();
        climb(
            count,
            step_of(width, bits),
            bits,
            self.values,
            self.lengths,
            self.hops,
        );
        self.held = Held {
            width,
            links,
            values: count,
            lengths: count,
            hops: count,
        };
    }

    // The same, of the room that the table has.
    pub fn is_bad_rising(&self, text: Text) -> bool
        ensures { result ≡ bad_rising text.entry.bytes.now text.entry.at (length self.now.values.now) }
    {
        is_bad_rising(text, self.values.len())
    }
}
