// The report's lines, each put at the end of a page. The page is long enough for the longest number in every line, so none of them tests.
// Bytes are put one by one and not by `Display`: the promise is of the bytes.
ghost use Rattle.std.specs.Prelude.{◌≡◌, ◌+◌, ◌≤◌, ◌++◌, length};
ghost use Rattle.arrayvec.specs.ArrayVec.{array_vec_len};
ghost use Rattle.reading.specs.Limits.{BITS, decimal_digits};
ghost use Rattle.reading.specs.Numerals.{decimal, binary, line_of};
ghost use Rattle.sheet.specs.Limits.{PAGE, decimal_bytes, address_bytes, refusal_bytes, head_bytes, answer_bytes};
ghost use Rattle.sheet.specs.Printing.{address_line, refusal_lines, head_lines, answer_lines};

use crate::limits::{DECIMAL_DIGITS, PAGE};
use arrayvec::ArrayVec;
use walk::AnswerNumbers;

// What a report is printed to. It never allocates.
pub(crate) type Page = ArrayVec<u8, PAGE>;

// Puts bytes.
fn put(page: &mut Page, bytes: &[u8])
    requires { array_vec_len page.old + length bytes.now ≤ PAGE }
    ensures { page.new.items ≡ page.old.items ++ bytes.now }
{
    page.try_extend_from_slice(bytes).unwrap();
}

// Puts a number in decimal.
fn put_number(page: &mut Page, n: u64)
    requires { array_vec_len page.old + decimal_digits ≤ PAGE }
    ensures { page.new.items ≡ page.old.items ++ decimal n }
{
    let mut text = [0u8; DECIMAL_DIGITS];
    let k = io::decimal(n, &mut text);
    put(page, &text[..k]);
}

// Puts the n binary digits of v, from the first to the last.
fn put_bits(page: &mut Page, v: u32, n: u8)
    requires { (array_vec_len page.old + n ≤ PAGE) × (n ≤ BITS) }
    ensures { page.new.items ≡ page.old.items ++ binary n v }
{
    for i in (0..n).rev() {
        page.push(b'0' + ((v >> i) % 2) as u8);
    }
}

// Puts a key, a number and LF.
fn put_line(page: &mut Page, key: &[u8], n: u64)
    requires { array_vec_len page.old + length key.now + decimal_bytes ≤ PAGE }
    ensures { page.new.items ≡ page.old.items ++ line_of key.now n }
{
    put(page, key);
    put_number(page, n);
    page.push(b'\n');
}

// Puts an address line of n digits.
fn put_address(page: &mut Page, v: u32, n: u8)
    requires { (array_vec_len page.old + n + address_bytes ≤ PAGE) × (n ≤ BITS) }
    ensures { page.new.items ≡ page.old.items ++ address_line v n }
{
    put(page, b"address=");
    put_bits(page, v, n);
    page.push(b'\n');
}

// Puts the lines of a refusal: all of a refused run's report.
pub(crate) fn put_refusal(page: &mut Page, number: u64, detail: u64)
    requires { array_vec_len page.old + refusal_bytes ≤ PAGE }
    ensures { page.new.items ≡ page.old.items ++ refusal_lines number detail }
{
    put_line(page, b"refusal=", number);
    put_line(page, b"detail=", detail);
}

// Puts the first four lines of an accepted run's report.
pub(crate) fn put_head(page: &mut Page, elements: u32, root: u8)
    requires { array_vec_len page.old + head_bytes ≤ PAGE }
    ensures { page.new.items ≡ page.old.items ++ head_lines elements root }
{
    put_refusal(page, 0, 0);
    put_line(page, b"elements=", u64::from(elements));
    put_line(page, b"root=", u64::from(root));
}

// Puts the four lines of a query: an address of n digits, and its answer.
pub(crate) fn put_answer(page: &mut Page, address: u32, n: u8, answer: AnswerNumbers)
    requires { (array_vec_len page.old + answer_bytes ≤ PAGE) × (n ≤ BITS) }
    ensures { page.new.items ≡ page.old.items ++ answer_lines address n answer.hop answer.length answer.reads }
{
    put_address(page, address, n);
    put_line(page, b"hop=", u64::from(answer.hop));
    put_line(page, b"length=", u64::from(answer.length));
    put_line(page, b"reads=", u64::from(answer.reads));
}
