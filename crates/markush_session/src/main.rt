//! The program `markush_session`: the words of the command line, and the real files, input and
//! output, handed to `run`.
//!
//! `run` holds a session over the store that the words name, or over empty tables in memory, and
//! answers each line of the input as it comes. Its promise is that of `hold` of mk_talk (`Runs` in
//! `specs/Runs.antt`). Of the tables of a store `run_over` says it, to which their keeper is handed.
#![tactic(auto)]

ghost use Rattle.std.specs.Prelude.{◌≡◌};
ghost use Rattle.std.specs.IoError.{error_kind};
ghost use Rattle.std.specs.Process.{exit_status};
ghost use Rattle.mk_outside.specs.Causes.{cause_of};
ghost use Rattle.mk_session.specs.Status.{code_of};
ghost use Rattle.markush_session.specs.Exits.{code_without_words};

mod running;

use mk_outside::{Cause, DiskFiles, StdSink, StdSource, cause_of};
use mk_session::Status;
use mk_talk::Pair;
use sqlite::Unknown;
use std::process::ExitCode;
use std::{env, io};

// The exit status where the words of the command line can't be had, which no run ends with.
const NO_WORDS: u8 = 9;

fn main(rt: HostRuntime) -> ExitCode {
    match words_of(&rt) {
        Ok(words) => exit_of(real_run(rt, &words)),
        Err(error) => exit_without_words(&error),
    }
}

// The words behind the program's name.
fn words_of(rt: &HostRuntime) -> io::Result<Vec<String>> {
    let words = env::args(rt)?.skip(1).collect(rt.alloc())?;
    Ok(words)
}

// A run with the real files, input and output.
fn real_run(rt: HostRuntime, words: &[String]) -> Status {
    let mut files = DiskFiles::new(rt);
    let mut talk = Pair::new(StdSource::new(&rt), StdSink::new(&rt));
    running::run(&rt, rt.alloc(), words, &mut files, &mut talk, Unknown)
}

// How the program ends after a run.
fn exit_of(status: Status) -> ExitCode
    ensures { exit_status result ≡ code_of status }
{
    ExitCode::from(status.code())
}

// How the program ends where the words of the command line can't be had.
fn exit_without_words(error: &io::Error) -> ExitCode
    ensures { exit_status result ≡ code_without_words (cause_of (error_kind error.now)) }
{
    ExitCode::from(match cause_of(error) {
        Cause::Memory => Status::Memory.code(),
        _ => NO_WORDS,
    })
}
