// The lines of the entries, bits and hop of each, and those of the queries, an address each.
ghost use Rattle.std.specs.Prelude.{◌≡◌, ◌≤◌, length};
ghost use Rattle.reading.specs.Lines.{spot_at};

use crate::limits::{NUMBER_DIGITS, SHORT};
use crate::lines::{BadLine, Lines};

impl Lines<'_> {
    ghost use Rattle.reading.specs.Entries.{EntriesTook, QueriesTook};

    // Reads n entries into the lists. (Lists, as `Contents` has them: they meet in this call alone.)
    pub(crate) fn entries(
        &mut self,
        n: usize,
        bits: &mut [u32],
        lengths: &mut [u8],
        hops: &mut [u16],
    ) -> Result<(), BadLine>
        requires { (n ≤ length bits.old) × (n ≤ length lengths.old) × (n ≤ length hops.old) }
        ensures took { EntriesTook self.old.text.now (spot_at self.old.at self.old.line) n bits.old lengths.old hops.old
            bits.new lengths.new hops.new result (spot_at self.new.at self.new.line) }
        ensures text { self.new.text ≡ self.old.text }
    {
        for i in 0..n {
            let read = self.bits(b"bits=", 0)?;
            let hop = self.number(b"hop=", NUMBER_DIGITS, SHORT)?;
            bits[i] = read.value as u32;
            lengths[i] = read.count as u8;
            hops[i] = hop as u16;
        }
        Ok(())
    }

    // Reads n addresses into the lists. (Lists, for the same reason.)
    pub(crate) fn queries(
        &mut self,
        n: usize,
        addresses: &mut [u32],
        places: &mut [u8],
    ) -> Result<(), BadLine>
        requires { (n ≤ length addresses.old) × (n ≤ length places.old) }
        ensures took { QueriesTook self.old.text.now (spot_at self.old.at self.old.line) n addresses.old places.old
            addresses.new places.new result (spot_at self.new.at self.new.line) }
        ensures text { self.new.text ≡ self.old.text }
    {
        for i in 0..n {
            let read = self.bits(b"address=", 1)?;
            addresses[i] = read.value as u32;
            places[i] = read.count as u8;
        }
        Ok(())
    }
}
