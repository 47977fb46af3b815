// The text of a run, read from its start to its end: decimal numbers, and the word that begins a line, which says what it asks.
ghost use Rattle.std.specs.Prelude.{◌≡◌, ◌+◌, All, drop, get_or, length, min, not, take, take_while, true};
ghost use Rattle.std.specs.List.{prefix_len};
ghost use Rattle.cases.specs.Limits.{first_letter, last_letter};
ghost use Rattle.cases.specs.Numerals.{between, more, number_at, seek_at};
ghost use Rattle.cases.specs.Words.{word_at};

use crate::fronts::front;
use crate::numbers::Number;

// The text, and the place that is read next.
#[derive(Clone, Copy)]
pub struct Text<'a> {
    pub bytes: &'a [u8],
    pub at: usize,
}

// Whether a byte lies from `low` to `high`.
fn is_within(low: u8, high: u8, byte: u8) -> bool
    ensures { result ≡ between low high byte }
{
    low <= byte && byte <= high
}

// How many bytes from the list's start on lie from `low` to `high`.
fn within(list: &[u8], low: u8, high: u8) -> usize
    ensures { result ≡ prefix_len (between low high) list.now }
{
    let passed = list.iter().take_while(|&&byte| is_within(low, high, byte));
    passed.count()
}

// The same of those that lie elsewhere. (Two functions: one over any test would want that test's contract beside it.)
fn outside(list: &[u8], low: u8, high: u8) -> usize
    ensures { result ≡ prefix_len (λ c. not (between low high c)) list.now }
{
    let passed = list.iter().take_while(|&&byte| !is_within(low, high, byte));
    passed.count()
}

// One digit more. Past 19 digits the number stays, so that it always fits.
#[tactic(auto, unfolding(crate::specs::Numerals::more))]
fn with_digit(value: u64, digit: u8) -> u64
    ensures { result ≡ more value digit }
{
    if value < 1000000000000000000 {
        return value * 10 + u64::from(digit.saturating_sub(b'0'));
    }
    value
}

impl<'a> Text<'a> {
    pub fn new(bytes: &'a [u8]) -> Text<'a>
        ensures bytes { result.bytes.now ≡ bytes.now }
        ensures at { result.at ≡ 0 }
    {
        Text { bytes, at: 0 }
    }

    // What is left of the text.
    fn rest(&self) -> &'a [u8]
        ensures { result.now ≡ drop self.now.at self.now.bytes.now }
    {
        self.bytes.get(self.at..).unwrap_or(&[])
    }

    // The bytes from here on that lie from `low` to `high`, up to the first that does not.
    fn span(&self, low: u8, high: u8) -> &'a [u8]
        ensures { result.now ≡ take_while (between low high) (drop self.now.at self.now.bytes.now) }
    {
        let rest = self.rest();
        front(rest, within(rest, low, high))
    }

    // The byte that stands here, 0 at the text's end. (0 and no `Option`: no case begins with it, and the promise has it so.)
    pub fn byte(&self) -> u8
        ensures { result ≡ get_or self.now.bytes.now self.now.at 0 }
    {
        self.bytes.get(self.at).copied().unwrap_or(0)
    }

    // The small letters that stand here: the word, whole.
    pub fn word(&self) -> &'a [u8]
        ensures stands { word_at self.now.bytes.now self.now.at result.now ≡ true }
        ensures letters { All (λ c. between first_letter last_letter c ≡ true) result.now }
    {
        self.span(b'a', b'z')
    }

    // Whether a word stands here, with no small letter after it.
    pub fn is_word(&self, word: &[u8]) -> bool
        ensures { result ≡ word_at self.now.bytes.now self.now.at word.now }
    {
        let rest = self.rest();
        let next = rest.get(word.len()).copied().unwrap_or(0);
        rest.starts_with(word) && !is_within(b'a', b'z', next)
    }

    // Goes on to the next place whose byte lies from `low` to `high`, or to the text's end where none does.
    pub fn seek(&mut self, low: u8, high: u8)
        ensures { self.new ≡ record self.old { at = seek_at low high self.old.bytes.now self.old.at } }
    {
        self.at += outside(self.rest(), low, high);
    }

    // The next decimal number, 0 where there is none; goes on past its last digit. (0 and no `Option`: a text may end before a line's last
    // numbers, which are 0 then.)
    pub fn number(&mut self) -> u64
        ensures value { result ≡ (number_at self.old.bytes.now self.old.at).value }
        ensures next { self.new ≡ record self.old { at = (number_at self.old.bytes.now self.old.at).next } }
    {
        self.seek(b'0', b'9');
        let digits = self.span(b'0', b'9');
        self.at += digits.len();
        digits
            .iter()
            .fold(0, |value, &digit| with_digit(value, digit))
    }

    // The same, held at the largest number of its type.
    pub fn held<T: Number>(&mut self) -> T
        ensures value { T.number result ≡ min (number_at self.old.bytes.now self.old.at).value T.most }
        ensures next { self.new ≡ record self.old { at = (number_at self.old.bytes.now self.old.at).next } }
    {
        T::held(self.number())
    }

    // The next n bytes, or as many as are left; goes on past them.
    pub fn part(&mut self, n: usize) -> &'a [u8]
        ensures bytes { result.now ≡ take n (drop self.old.at self.old.bytes.now) }
        ensures next { self.new ≡ record self.old { at = self.old.at + length result.now } }
    {
        let part = front(self.rest(), n);
        self.at += part.len();
        part
    }
}
