// What a line of a script is, what the words of the command line are, and the store in them.
ghost use Rattle.std.specs.Prelude.{◌≡◌, IfOk, map};
ghost use Rattle.std.specs.Option.{option_copied};
ghost use Rattle.std.specs.String.{string_bytes};
ghost use Rattle.mk_text.specs.Lines.{words_of};
ghost use Rattle.mk_text.specs.Spans.{AreWithin, parts};
ghost use Rattle.mk_words.specs.Commands.{CanAskLine, CanAskWords, behind_store, kind_behind_store, kind_of_line, kind_of_words, store_path};

use crate::command_rows::command_of;
use crate::{Command, LineKind, WordsKind};
use mk_outside::{Bytes, Memory};
use mk_text::{Span, is_blank, words};
use std::alloc::Global;

// A command has no more words.
const MOST_WORDS: usize = 4;

// The word in front of the path of a store.
const STORE: &str = "--store";

/// What a line of a script is.
pub fn command_of_line(alloc: Global, line: &[u8]) -> Result<LineKind, Memory>
    ensures kind { IfOk result (λ kind. kind ≡ kind_of_line line.now) }
    ensures asks { IfOk result CanAskLine }
{
    if is_blank(line) {
        return Ok(LineKind::Blank);
    }
    let spans = words(alloc, line)?;
    let spans = spans.as_slice();
    if spans.len() > MOST_WORDS {
        return Ok(LineKind::NoCommand);
    }
    let words = words_at(alloc, line, spans)?;
    match command_of(alloc, &words)? {
        Some(command) => Ok(LineKind::Is(command)),
        None => Ok(LineKind::NoCommand),
    }
}

// The words that stand there.
fn words_at(alloc: Global, line: &[u8], spans: &[Span]) -> Result<Vec<Bytes>, Memory>
    requires { AreWithin line.now spans.now }
    ensures { IfOk result (λ list. list.items ≡ parts line.now spans.now) }
{
    let mut list = Vec::new(alloc);
    for span in spans {
        list.push(Bytes::of(Vec::from_slice(alloc, &line[span.from..span.to])?))?;
    }
    Ok(list)
}

/// The path of the store: the second word where the first is `--store` and a second is there.
pub fn store_word(words: &[String]) -> Option<&str>
    ensures { option_copied result ≡ store_path (map string_bytes words.now) }
{
    match words {
        [flag, path, ..] if flag.as_str() == STORE => Some(path.as_str()),
        _ => None,
    }
}

// The words behind the store and its path, or all where there is none.
fn behind_store(words: &[String]) -> &[String]
    ensures { map string_bytes result.now ≡ behind_store (map string_bytes words.now) }
{
    match words {
        [flag, _, others @ ..] if flag.as_str() == STORE => others,
        _ => words,
    }
}

/// What the words of the command line are.
pub fn command_of_words(alloc: Global, words: &[String]) -> Result<WordsKind, Memory>
    ensures kind { IfOk result (λ kind. kind ≡ kind_of_words (map string_bytes words.now)) }
    ensures asks { IfOk result CanAskWords }
{
    kind_behind_store(alloc, behind_store(words))
}

// What the words are where they have no store in front.
fn kind_behind_store(alloc: Global, words: &[String]) -> Result<WordsKind, Memory>
    ensures kind { IfOk result (λ kind. kind ≡ kind_behind_store (map string_bytes words.now)) }
    ensures asks { IfOk result CanAskWords }
{
    if words.is_empty() {
        return Ok(WordsKind::Script);
    }
    if words.len() > MOST_WORDS {
        return Ok(WordsKind::NotUnderstood);
    }
    let words = bytes_of(alloc, words)?;
    match command_of(alloc, &words)? {
        Some(command) => Ok(WordsKind::Is(command)),
        None => Ok(WordsKind::NotUnderstood),
    }
}

// The words as bytes.
fn bytes_of(alloc: Global, words: &[String]) -> Result<Vec<Bytes>, Memory>
    ensures { IfOk result (λ list. list.items ≡ map string_bytes words.now) }
{
    let mut list = Vec::new(alloc);
    for word in words {
        list.push(Bytes::of(Vec::from_slice(alloc, word.as_str().as_bytes())?))?;
    }
    Ok(list)
}
