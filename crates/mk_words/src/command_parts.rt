// Single words of a command: names of files and of queries, and numbers.
ghost use Rattle.std.specs.Prelude.{◌≡◌, ◌==◌, IfOk, IfSome, map};
ghost use Rattle.std.specs.List.{list_all, slice_split};
ghost use Rattle.std.specs.Char.{is_ascii_digit};
ghost use Rattle.mk_text.specs.Fields.{digits_number};
ghost use Rattle.mk_words.specs.Commands.{file_in, name_in, number_in, numbers_in, place_in};
ghost use Rattle.mk_kept.specs.Names.{is_name, is_name_byte};

use mk_kept::is_name;
use mk_outside::{Memory, Place, Text};
use mk_text::field;
use std::alloc::{AllocError, Global};

// How many numbers a place has at most.
const LONGEST_PLACE: usize = 514;

/// The word as the name of a file.
pub fn file_in(alloc: Global, word: &[u8]) -> Result<Option<Text>, Memory>
    ensures { IfOk result (λ text. text ≡ file_in word.now) }
{
    let bytes = Vec::from_slice(alloc, word)?;
    match String::from_utf8(bytes) {
        Ok(text) => Ok(Some(Text::of(text))),
        Err(_) => Ok(None),
    }
}

/// The word as the name of a query.
pub fn name_in(alloc: Global, word: &[u8]) -> Result<Option<Text>, Memory>
    ensures { IfOk result (λ text. text ≡ name_in word.now) }
{
    if !is_name(word) {
        return Ok(None);
    }
    file_in(alloc, word)
}

/// The word as a number of one to nine digits that lies in this range.
pub fn number_in(word: &[u8], least: u32, most: u32) -> Option<u32>
    ensures { result ≡ number_in least most word.now }
{
    let number = digits_number(word)?;
    if least <= number && number <= most {
        return Some(number);
    }
    None
}

/// The word as a place, which is so many numbers at most, with a comma between each two.
pub fn place_in(alloc: Global, word: &[u8]) -> Result<Option<Place>, Memory>
    ensures { IfOk result (λ place. place ≡ place_in word.now) }
{
    let parts = between_commas(alloc, word)?;
    if parts.len() > LONGEST_PLACE {
        return Ok(None);
    }
    numbers_in(alloc, &parts)
}

// What stands between the commas of a word.
fn between_commas(alloc: Global, word: &[u8]) -> Result<Vec<&[u8]>, AllocError>
    ensures { IfOk result (λ parts. map (λ part. part.now) parts.items ≡ slice_split (λ b. b == 44) word.now) }
{
    word.split(|byte| *byte == b',').collect(alloc)
}

// The numbers that these words are, where each is one.
fn numbers_in(alloc: Global, words: &[&[u8]]) -> Result<Option<Place>, Memory>
    ensures { IfOk result (λ place. place ≡ numbers_in (map (λ word. word.now) words.now)) }
{
    let mut numbers = Vec::new(alloc);
    for word in words {
        match digits_number(word) {
            Some(number) => numbers.push(number)?,
            None => return Ok(None),
        }
    }
    Ok(Some(Place::of(numbers)))
}

// The number of one to nine digits.
#[tactic(auto, unfolding(mk_text::specs::Fields::digits_number))]
fn digits_number(word: &[u8]) -> Option<u32>
    ensures { result ≡ digits_number word.now }
{
    if word.is_empty() || word.len() > 9 {
        return None;
    }
    if !are_digits(word) {
        return None;
    }
    let number = field(word, 1, word.len())?;
    Some(number.unsigned_abs())
}

fn are_digits(word: &[u8]) -> bool
    ensures { result ≡ list_all is_ascii_digit word.now }
{
    word.iter().all(|byte| byte.is_ascii_digit())
}
