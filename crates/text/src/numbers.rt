// Whole numbers and decimals: leaf parsers.
ghost use Rattle.std.specs.Prelude.{◌≡◌, ℕ, ◌+◌, ◌*◌, ◌^◌, ◌<◌, ◌≤◌, length, IfSome};
ghost use Rattle.text.specs.Cuts.{span_to};
ghost use Rattle.text.specs.Forms.{digits_form, time_form, at_most, decimal_form, quantity_form, price_form};

use crate::cuts::span_to;

// The number that 1 to `most` digits write. Digit by digit: `parse` wants a `str`, and takes a plus sign, which would have to be refused apart.
fn digits_of(text: &[u8], most: usize) -> Option<u64>
    requires { most ≤ 10 }
    ensures value { result ≡ digits_form most text.now }
    ensures small { IfSome result (λ v. v < 10000000000) }
{
    if text.len() < 1 || text.len() > most {
        return None;
    }
    let mut v: u64 = 0;
    for b in text {
        if !b.is_ascii_digit() {
            return None;
        }
        v = v * 10 + (*b - b'0') as u64;
    }
    Some(v)
}

// A time: one to ten digits, at most 4294967295.
pub fn time_of(text: &[u8]) -> Option<u32>
    ensures { result ≡ time_form text.now }
{
    u32::try_from(digits_of(text, 10)?).ok()
}

// What the digits after a dot are scaled by. A table, and not `pow`, which is a loop: with it a
// quantity and a price take a quarter longer (docs/FIGURES.md).
const POWERS: [u64; 6] = [1, 10, 100, 1000, 10000, 100000];

// One to `most` digits, and after a dot one to five more, at most `limit`: the hundred-thousandths.
fn decimal_of(text: &[u8], most: usize, limit: u64) -> Option<u64>
    requires digits { most ≤ 8 }
    requires units { limit ≤ 10000000 }
    ensures value { result ≡ decimal_form most limit text.now }
    ensures small { IfSome result (λ v. v ≤ limit * 100000) }
{
    let w = span_to(text, b'.');
    let whole = digits_of(&text[..w], most)?;
    if w == text.len() {
        let units = whole * 100000;
        return (units <= limit * 100000).then_some(units);
    }
    let rest = &text[w + 1..];
    let part = digits_of(rest, 5)?;
    let sum = whole * 100000 + part * POWERS[5 - rest.len()];
    (sum <= limit * 100000).then_some(sum)
}

// A quantity in hundred-thousandths: a decimal of at most eight digits before the dot, at most ten million.
pub fn quantity_of(text: &[u8]) -> Option<u64>
    ensures { result ≡ quantity_form text.now }
{
    decimal_of(text, 8, 10000000)
}

// A price in hundred-thousandths: blank, or an optional minus and a decimal of at most seven digits before the dot, at most a million.
pub fn price_of(text: &[u8]) -> Option<Option<i64>>
    ensures { result ≡ price_form text.now }
{
    match text {
        [] => Some(None),
        [b'-', rest @ ..] => decimal_of(rest, 7, 1000000).map(|v| Some(-(v as i64))),
        _ => decimal_of(text, 7, 1000000).map(|v| Some(v as i64)),
    }
}
