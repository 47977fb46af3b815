// One line of the text: a key, its value in digits, LF. Lines are read in order, and the first bad one ends the reading.
ghost use Rattle.std.specs.Prelude.{◌≡◌, ◌+◌, ◌^◌, ◌<◌, ◌≤◌, length, IfOk, MatchResult};
ghost use Rattle.reading.specs.Limits.{safe_digits, KEY, BITS};
ghost use Rattle.reading.specs.declared.lines.Digits.{Digits};
ghost use Rattle.reading.specs.Lines.{byte_at, key_at, is_digit, digits_at, unpadded, kind_named, spot_at, close, number_line, bits_line, kind_line};

use crate::limits::{BITS, KIND_KEY};
use choosers::Kind;

// The first bad line of a text. Lines are numbered from 1; an early end is bad at the line after the last complete one, text that stands
// after the last line at the line after it.
#[derive(Clone, Copy, Debug, PartialEq, Eq)]
pub struct BadLine {
    pub line: usize,
}

// A text that is read line by line: the next byte, and the number of the next line.
#[derive(Drop)]
pub(crate) struct Lines<'a> {
    text: &'a [u8],
    at: usize,
    line: usize,
    ghost inside: { at ≤ length text.now },
    ghost counted: { line ≤ at + 1 },
}

// Digits that stand in the text: the number that they spell, and how many they are.
#[derive(Clone, Copy)]
pub(crate) struct Digits {
    pub(crate) value: u64,
    pub(crate) count: u32,
}

// Whether a byte is one of the first `base` digits. (`as`, here and in `digits`: tried as `u64::from`, the proofs did not close.)
fn is_digit(base: u64, c: u8) -> bool
    requires { base ≤ 10 }
    ensures { result ≡ is_digit base c }
{
    b'0' <= c && (c as u64) < b'0' as u64 + base
}

// Whether a number whose first byte and count of digits these are has a digit, and no leading zero.
fn is_unpadded(first: u8, count: u32) -> bool
    ensures { result ≡ unpadded first count }
{
    if first == b'0' {
        return count == 1;
    }
    0 < count
}

impl<'a> Lines<'a> {
    ghost use Rattle.reading.specs.Taking.{Took, digits_of, bad_at};

    pub(crate) fn new(text: &'a [u8]) -> Lines<'a>
        ensures text { result.text ≡ text.entry }
        ensures start { (result.at ≡ 0) × (result.line ≡ 1) }
    {
        Lines {
            text,
            at: 0,
            line: 1,
        }
    }

    // The next line is bad.
    fn bad(&self) -> BadLine
        ensures { result ≡ bad_at self.now.line }
    {
        BadLine { line: self.line }
    }

    // The byte at p; 0, which no line has, past the end: so an early end is no case of its own.
    fn byte(&self, p: usize) -> u8
        ensures { result ≡ byte_at self.now.text.now p }
    {
        self.text.get(p).copied().unwrap_or(0)
    }

    // Whether the next line begins with the key.
    fn starts_with(&self, key: &[u8]) -> bool
        requires { length key.now ≤ KEY }
        ensures { result ≡ key_at key.now self.now.text.now self.now.at }
    {
        for (i, &c) in key.iter().enumerate() {
            if self.byte(self.at + i) != c {
                return false;
            }
        }
        true
    }

    // The digits from p on, at most `most`.
    fn digits(&self, p: usize, base: u64, most: u32) -> Digits
        requires { (p ≤ length self.now.text.now + KEY) × (2 ≤ base) × (base ≤ 10) × (base ^ most ≤ 2 ^ 64) }
        ensures { result ≡ digits_at base most self.now.text.now p }
    {
        let mut value = 0;
        for count in 0..most {
            let c = self.byte(p + count as usize);
            if !is_digit(base, c) {
                return Digits { value, count };
            }
            value = value * base + (c - b'0') as u64;
        }
        Digits { value, count: most }
    }

    // The line ends at `end`, where LF stands, and has this value.
    fn close<T: Copy>(&mut self, end: usize, value: T) -> Result<T, BadLine>
        requires { (self.old.at ≤ end) × (end ≤ length self.old.text.now + KEY + BITS) }
        ensures value { IfOk result (λ v. v ≡ value) }
        ensures took { (d : Digits) → Took (close self.old.text.now (spot_at self.old.at self.old.line) end d)
            (λ _. value) result (spot_at self.new.at self.new.line) }
        ensures text { self.new.text ≡ self.old.text }
    {
        if self.byte(end) != b'\n' {
            return Err(self.bad());
        }
        self.at = end + 1;
        self.line += 1;
        Ok(value)
    }

    // A key and a number: 1 to `digits` decimal digits, no leading zero, at most `most`. Each line names its own limits: another one's are
    // not changed with them (must-fail/sixth_digit.edit).
    pub(crate) fn number(&mut self, key: &[u8], digits: u32, most: u64) -> Result<u64, BadLine>
        requires { (length key.now ≤ KEY) × (digits ≤ safe_digits) }
        ensures took { Took (number_line digits most key.now self.old.text.now (spot_at self.old.at self.old.line))
            (λ l. l.value) result (spot_at self.new.at self.new.line) }
        ensures fits { IfOk result (λ v. v ≤ most) }
        ensures text { self.new.text ≡ self.old.text }
    {
        if !self.starts_with(key) {
            return Err(self.bad());
        }
        let from = self.at + key.len();
        let read = self.digits(from, 10, digits);
        if !is_unpadded(self.byte(from), read.count) {
            return Err(self.bad());
        }
        if most < read.value {
            return Err(self.bad());
        }
        self.close(from + read.count as usize, read.value)
    }

    // A key and binary digits, at least `least` and at most BITS.
    pub(crate) fn bits(&mut self, key: &[u8], least: u32) -> Result<Digits, BadLine>
        requires { length key.now ≤ KEY }
        ensures took { Took (bits_line least key.now self.old.text.now (spot_at self.old.at self.old.line))
            digits_of result (spot_at self.new.at self.new.line) }
        ensures fits { IfOk result (λ d. (d.value < 2 ^ BITS) × (d.count ≤ BITS)) }
        ensures text { self.new.text ≡ self.old.text }
    {
        if !self.starts_with(key) {
            return Err(self.bad());
        }
        let from = self.at + key.len();
        let read = self.digits(from, 2, BITS);
        if read.count < least {
            return Err(self.bad());
        }
        self.close(from + read.count as usize, read)
    }

    // The kind's line.
    pub(crate) fn kind(&mut self) -> Result<Kind, BadLine>
        ensures took { Took (kind_line self.old.text.now (spot_at self.old.at self.old.line))
            (λ l. kind_named l.value) result (spot_at self.new.at self.new.line) }
        ensures text { self.new.text ≡ self.old.text }
    {
        if self.starts_with(b"kind=fst") {
            return self.close(self.at + KIND_KEY, Kind::Fixed);
        }
        if self.starts_with(b"kind=vst") {
            return self.close(self.at + KIND_KEY, Kind::Variable);
        }
        Err(self.bad())
    }

    // Nothing stands after the last line.
    pub(crate) fn end(&self) -> Result<(), BadLine>
        ensures { MatchResult result (λ _. self.now.at ≡ length self.now.text.now)
            (λ b. (self.now.at ≡ length self.now.text.now → ⊥) × (b ≡ bad_at self.now.line)) }
    {
        if self.at == self.text.len() {
            Ok(())
        } else {
            Err(self.bad())
        }
    }
}
