// What the words and the input ask for.
ghost use Rattle.std.specs.Prelude.{◌≡◌, ◌≤◌, map, IfOk};
ghost use Rattle.std.specs.String.{string_bytes};
ghost use Rattle.mk_session.specs.Outcomes.{IsInputTaken};
ghost use Rattle.mk_session.specs.Given.{Gives, ReadsInput, CanAskGiven};

use crate::work::{Given, Work};
use crate::{Status, WordsKind, command_of_words};
use mk_outside::{Bytes, Failed, Listed, Memory, Source};
use mk_text::lines;
use std::alloc::Global;

// How many bytes a script may have.
const SCRIPT_BYTES: usize = 16_777_216;

// How many bytes are asked for at once.
const CHUNK: usize = 4_096;

/// Reads the words, and where they hold no command the input to its end.
pub fn given_by<S: Source>(alloc: Global, words: &[String], input: &mut S) -> Result<Given, Status>
    ensures given { Gives (map string_bytes words.now) (S.left input.old) (S.left input.new) (S.faults input.old) (S.faults input.new) result }
    ensures can_ask { IfOk result CanAskGiven }
    ensures taken { IsInputTaken (S.left input.old) (S.left input.new) }
{
    match command_of_words(alloc, words) {
        Err(_) => Err(Status::Memory),
        Ok(WordsKind::NotUnderstood) => Ok(Given::NoCommand),
        Ok(WordsKind::Is(command)) => Ok(Given::Orders(Work::One(Some(command)))),
        Ok(WordsKind::Script) => match read_script(alloc, input)? {
            None => Ok(Given::TooMuch),
            Some(text) => match lines(alloc, text.as_slice()) {
                Err(_) => Err(Status::Memory),
                Ok(spans) => Ok(Given::Orders(Work::Script(text, Listed::of(spans)))),
            },
        },
    }
}

// Reads the input to its end. None is an input over the limit.
fn read_script<S: Source>(alloc: Global, input: &mut S) -> Result<Option<Bytes>, Status>
    ensures reads { ReadsInput (S.left input.old) (S.left input.new) (S.faults input.old) (S.faults input.new) result }
    ensures taken { IsInputTaken (S.left input.old) (S.left input.new) }
{
    let mut text = Vec::new(alloc);
    let mut chunk = [0u8; CHUNK];
    while text.len() <= SCRIPT_BYTES {
        match input.read(&mut chunk) {
            Ok(0) => return Ok(Some(Bytes::of(text))),
            Ok(count) => {
                if text.extend_from_slice(&chunk[..count]).is_err() {
                    return Err(Status::Memory);
                }
            }
            Err(Failed) => return Err(Status::Read),
        }
    }
    Ok(None)
}
