// Numeric fields.
ghost use Rattle.std.specs.Prelude.{◌≡◌, ◌≤◌, ◌<◌, ◌+◌, ◌*◌, ◌^◌, ℤ, neg_ℤ, pos, true, [], ◌∷◌, IfSome, IfNone};
ghost use Rattle.std.specs.Option.{option_map};
ghost use Rattle.std.specs.List.{list_all};
ghost use Rattle.std.specs.Char.{is_ascii_digit};
ghost use Rattle.mk_text.specs.Columns.{columns};
ghost use Rattle.mk_text.specs.Fields.{IsField, field_in, field_of, signed_in, digits_number};

use crate::columns::{column, without_outer_blanks};

/// The number of the columns `from` to `to`, or None where they are no numeric field.
#[tactic(auto, unfolding(crate::specs::Fields::field_of))]
pub fn field(line: &[u8], from: usize, to: usize) -> Option<i32>
    requires first { 1 ≤ from }
    requires order { from ≤ to }
    ensures number { IfSome result (IsField (columns line.now from to)) }
    ensures none { IfNone result ((n : ℤ) → IsField (columns line.now from to) n → ⊥) }
    ensures value { result ≡ field_of line.now from to }
{
    number_in(column(line, from, to))
}

// The number of some columns.
fn number_in(cells: &[u8]) -> Option<i32>
    ensures { result ≡ field_in cells.now }
{
    match small_number(cells) {
        Some(number) => Some(number as i32),
        None => signed(without_outer_blanks(cells)),
    }
}

// The number of three columns that are one or two digits after blanks, as most fields of a table are,
// and None of any others.
fn small_number(cells: &[u8]) -> Option<u32>
    ensures { IfSome result (λ n. (field_in cells.now ≡ Some (pos n)) × (n < 100)) }
{
    match cells {
        [first, second, last] => number_of_three(*first, *second, *last),
        _ => None,
    }
}

fn number_of_three(first: u8, second: u8, last: u8) -> Option<u32>
    ensures { IfSome result (λ n. (field_in (first ∷ second ∷ last ∷ []) ≡ Some (pos n)) × (n < 100)) }
{
    if first != b' ' {
        return None;
    }
    let ones = digit(last)?;
    if second == b' ' {
        return Some(ones);
    }
    Some(10 * digit(second)? + ones)
}

fn digit(byte: u8) -> Option<u32>
    ensures { IfSome result (λ n. (is_ascii_digit byte ≡ true) × (n + 48 ≡ byte) × (n < 10)) }
{
    if byte.is_ascii_digit() {
        Some(u32::from(byte - b'0'))
    } else {
        None
    }
}

// The number of an optional sign and digits, and 0 of nothing.
fn signed(cells: &[u8]) -> Option<i32>
    ensures { result ≡ signed_in cells.now }
{
    match cells {
        [] => Some(0),
        [b'+', digits @ ..] => unsigned(digits),
        [b'-', digits @ ..] => negative(digits),
        digits => unsigned(digits),
    }
}

fn negative(digits: &[u8]) -> Option<i32>
    ensures { result ≡ option_map (λ n. neg_ℤ (pos n)) (digits_number digits.now) }
{
    Some(-(number_of(digits)? as i32))
}

fn unsigned(digits: &[u8]) -> Option<i32>
    ensures { result ≡ option_map pos (digits_number digits.now) }
{
    Some(number_of(digits)? as i32)
}

// The number of one to nine digits.
#[tactic(auto, unfolding(crate::specs::Fields::digits_number))]
fn number_of(digits: &[u8]) -> Option<u32>
    ensures value { result ≡ digits_number digits.now }
    ensures small { IfSome result (λ n. n < 10 ^ 9) }
{
    if digits.is_empty() || digits.len() > 9 {
        return None;
    }
    if !are_digits(digits) {
        return None;
    }
    let mut number: u32 = 0;
    for digit in digits {
        number = number * 10 + u32::from(*digit - b'0');
    }
    Some(number)
}

fn are_digits(cells: &[u8]) -> bool
    ensures { result ≡ list_all is_ascii_digit cells.now }
{
    for cell in cells {
        if !cell.is_ascii_digit() {
            return false;
        }
    }
    true
}
