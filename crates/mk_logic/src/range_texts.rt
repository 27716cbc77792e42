// How a range is written.
ghost use Rattle.std.specs.Prelude.{◌≡◌, ◌≤◌, ◌<◌, ◌+◌, ◌==◌, nat_le, true, drop, IfNone, IfOk, IfSome, List, length};
ghost use Rattle.std.specs.List.{list_all, position_or_len, prefix_len};
ghost use Rattle.std.specs.Char.{digit_value, is_ascii_digit};
ghost use Rattle.mk_text.specs.Columns.{is_space, trimmed, without_first_blanks};
ghost use Rattle.mk_text.specs.Options.{when};
ghost use Rattle.mk_model.specs.declared.group.Interval.{Interval};
ghost use Rattle.mk_logic.specs.RangeReading.{range_number, numbers_in, numeral, one_number_in, range_item, range_of, two_numbers_in};
ghost use Rattle.mk_logic.specs.RangeTexts.{IsRangeText, above, below, from_to};

use mk_model::{Interval, Range};
use mk_text::{Memory, is_blank, trimmed_column};
use std::alloc::Global;

// The greatest number of a range.
const MOST: u32 = 999_999;

/// The intervals of a range text, or None where the text is none.
pub fn read_range(alloc: Global, text: &[u8]) -> Result<Option<Range>, Memory>
    ensures range { IfOk result (λ found. IfSome found (IsRangeText text.now)) }
    ensures none { IfOk result (λ found. IfNone found ((range : List Interval) → IsRangeText text.now range → ⊥)) }
    ensures value { IfOk result (λ found. found ≡ range_of text.now) }
{
    let mut range = Range::new(alloc);
    if is_blank(text) {
        range.push(above(0))?;
        return Ok(Some(range));
    }
    let mut rest = text;
    'items: loop {
        let end = place_of(b',', rest);
        match item(&rest[..end]) {
            Some(interval) => range.push(interval)?,
            None => return Ok(None),
        }
        if end == rest.len() {
            return Ok(Some(range));
        }
        rest = behind(end, rest);
    }
}

// The place of the first byte that is this one, or the length where there is none.
fn place_of(byte: u8, text: &[u8]) -> usize
    ensures place { result ≡ position_or_len (λ b. b == byte) text.now }
    ensures within { result ≤ length text.now }
{
    for (i, b) in text.iter().enumerate() {
        if *b == byte {
            return i;
        }
    }
    text.len()
}

// What stands behind a place.
fn behind(place: usize, text: &[u8]) -> &[u8]
    requires { place < length text.now }
    ensures { result.now ≡ drop (place + 1) text.now }
{
    &text[place + 1..]
}

// The interval of `n`, `n-m`, `>n` or `<n`.
#[tactic(auto, unfolding(crate::specs::RangeReading::range_item))]
fn item(text: &[u8]) -> Option<Interval>
    ensures { result ≡ range_item text.now }
{
    match without_first_blanks(text) {
        [] => None,
        [b'>', rest @ ..] => Some(above(numeral(rest)?)),
        [b'<', rest @ ..] => Some(below(numeral(rest)?)),
        _ => numbers(text),
    }
}

// The interval of `n` or `n-m`.
fn numbers(text: &[u8]) -> Option<Interval>
    ensures { result ≡ numbers_in text.now }
{
    let place = place_of(b'-', text);
    if place < text.len() {
        two_numbers(&text[..place], behind(place, text))
    } else {
        one_number(text)
    }
}

fn one_number(text: &[u8]) -> Option<Interval>
    ensures { result ≡ one_number_in text.now }
{
    let n = numeral(text)?;
    Some(Interval { least: n, most: n })
}

fn two_numbers(front: &[u8], rest: &[u8]) -> Option<Interval>
    ensures { result ≡ two_numbers_in front.now rest.now }
{
    between(numeral(front)?, numeral(rest)?)
}

fn between(least: u32, most: u32) -> Option<Interval>
    ensures { result ≡ when (nat_le least most) (Some (from_to least most)) }
{
    if least <= most {
        Some(Interval { least, most })
    } else {
        None
    }
}

fn above(n: u32) -> Interval
    requires { n ≤ 999 }
    ensures { result ≡ above n }
{
    Interval {
        least: n + 1,
        most: MOST,
    }
}

fn below(n: u32) -> Interval
    ensures { result ≡ below n }
{
    if n == 0 {
        return Interval { least: 1, most: 0 };
    }
    Interval {
        least: 0,
        most: n - 1,
    }
}

// The number of one to three digits between blanks.
fn numeral(text: &[u8]) -> Option<u32>
    ensures value { result ≡ numeral text.now }
    ensures small { IfSome result (λ n. n ≤ 999) }
{
    number(without_blanks(text))
}

fn without_first_blanks(text: &[u8]) -> &[u8]
    ensures { result.now ≡ without_first_blanks text.now }
{
    &text[blanks_before(text)..]
}

// How many blanks the text begins with.
fn blanks_before(text: &[u8]) -> usize
    ensures blanks { result ≡ prefix_len is_space text.now }
    ensures within { result ≤ length text.now }
{
    for (i, byte) in text.iter().enumerate() {
        if *byte != b' ' {
            return i;
        }
    }
    text.len()
}

fn without_blanks(text: &[u8]) -> &[u8]
    ensures { result.now ≡ trimmed text.now }
{
    if text.is_empty() {
        return text;
    }
    trimmed_column(text, 1, text.len())
}

// The number of one to three digits.
#[tactic(auto, unfolding(crate::specs::RangeReading::range_number))]
fn number(digits: &[u8]) -> Option<u32>
    ensures value { result ≡ range_number digits.now }
    ensures small { IfSome result (λ n. n ≤ 999) }
{
    if !are_digits(digits) {
        return None;
    }
    match digits {
        [a] => Some(digit(*a)),
        [a, b] => Some(digit(*a) * 10 + digit(*b)),
        [a, b, c] => Some((digit(*a) * 10 + digit(*b)) * 10 + digit(*c)),
        _ => None,
    }
}

fn are_digits(cells: &[u8]) -> bool
    ensures { result ≡ list_all is_ascii_digit cells.now }
{
    cells.iter().all(|cell| cell.is_ascii_digit())
}

fn digit(byte: u8) -> u32
    requires { is_ascii_digit byte ≡ true }
    ensures value { result ≡ digit_value byte }
    ensures small { result ≤ 9 }
{
    u32::from(byte - b'0')
}
