//! Which words are a command: the lines of a script and the words of the command line, and the store
//! in front of these.
//!
//! Callers use one promise: words are exactly one command, or none (`command_of_line`,
//! `command_of_words`, `IsCommandOf` in `specs/Commands.antt`). A command that is read can be asked
//! for: its names are names, and its numbers lie in their ranges.
//!
//! What a command does isn't known here: see `mk_session`.
#![tactic(auto)]

mod command;
mod command_parts;
mod command_reading;
mod command_rows;
mod laws;

pub use command::{Command, LineKind, WordsKind};
pub use command_reading::{command_of_line, command_of_words, store_word};
pub use laws::{commands_are_read, words_are_read};
