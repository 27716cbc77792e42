// A whole run, with a store or without one.
ghost use Rattle.std.specs.Prelude.{◌≡◌, map};
ghost use Rattle.std.specs.String.{string_bytes};
ghost use Rattle.mk_words.specs.Commands.{kind_of_words, store_path};
ghost use Rattle.mk_session.specs.Headline.{Headline};
ghost use Rattle.mk_session.specs.Outcomes.{IsUntouched};
ghost use Rattle.mk_sqlite.specs.Keeper.{kept_tables, IsKeptSound};
ghost use Rattle.markush.specs.Runs.{Runs, RunsInMemory, RunsOverStore, with_keeper};

use mk_outside::{Files, Sink, Source, SureKeeper, Tables};
use mk_session::{Status, store_word, top};
use mk_sqlite::SqlKeeper;
use sqlite::{Alter, Start};
use std::alloc::Global;

/// Does what the words or the input say, over the store that the words name, or over empty tables
/// that are let go at the end. `start` stands for what the store's files hold. Which tables a run over
/// a store has is said by `run_over`.
pub fn run<F: Files, S: Source, W: Sink, B: Start>(
    rt: &HostRuntime,
    alloc: Global,
    words: &[String],
    files: &mut F,
    input: &mut S,
    output: &mut W,
    start: B,
) -> Status
    ensures runs { Runs (store_path (map string_bytes words.now)) (map string_bytes words.now)
        (record {
          files = F.look_up files.old;
          input = S.left input.old;
          output = W.so_far output.old;
          files_faults = F.faults files.old;
          input_faults = S.faults input.old;
          output_faults = W.faults output.old;
          absences = F.absences files.old;
        })
        (record {
          files = F.look_up files.new;
          input = S.left input.new;
          output = W.so_far output.new;
          files_faults = F.faults files.new;
          input_faults = S.faults input.new;
          output_faults = W.faults output.new;
          absences = F.absences files.new;
        }) result }
    // Where the one command of the words can't read a file, nothing is written, told or not.
    ensures unread { IsUntouched (kind_of_words (map string_bytes words.now)) (W.so_far output.old) (W.so_far output.new) result }
    ensures same_files { F.look_up files.new ≡ F.look_up files.old }
{
    match store_word(words) {
        Some(path) => run_over_store(rt, alloc, path, words, files, input, output, start),
        None => run_in_memory(alloc, words, files, input, output),
    }
}

// A run over the file of this path.
fn run_over_store<F: Files, S: Source, W: Sink, B: Start>(
    rt: &HostRuntime,
    alloc: Global,
    path: &str,
    words: &[String],
    files: &mut F,
    input: &mut S,
    output: &mut W,
    start: B,
) -> Status
    ensures runs { RunsOverStore (map string_bytes words.now)
        (record {
          files = F.look_up files.old;
          input = S.left input.old;
          output = W.so_far output.old;
          files_faults = F.faults files.old;
          input_faults = S.faults input.old;
          output_faults = W.faults output.old;
          absences = F.absences files.old;
        })
        (record {
          files = F.look_up files.new;
          input = S.left input.new;
          output = W.so_far output.new;
          files_faults = F.faults files.new;
          input_faults = S.faults input.new;
          output_faults = W.faults output.new;
          absences = F.absences files.new;
        }) result }
    ensures unread { IsUntouched (kind_of_words (map string_bytes words.now)) (W.so_far output.old) (W.so_far output.new) result }
    ensures same_files { F.look_up files.new ≡ F.look_up files.old }
{
    let mut store = SqlKeeper::at(rt, path, start);
    run_over(alloc, words, files, input, output, &mut store)
}

/// A run over a keeper of any database. What it says of tables is said of those that the keeper
/// tells.
pub fn run_over<F: Files, S: Source, W: Sink, D: Alter>(
    alloc: Global,
    words: &[String],
    files: &mut F,
    input: &mut S,
    output: &mut W,
    store: &mut SqlKeeper<D>,
) -> Status
    ensures runs { Headline (IsKeptSound D.Store store.new.opened) (map string_bytes words.now)
        (with_keeper (record {
          files = F.look_up files.old;
          input = S.left input.old;
          output = W.so_far output.old;
          files_faults = F.faults files.old;
          input_faults = S.faults input.old;
          output_faults = W.faults output.old;
          absences = F.absences files.old;
        }) (kept_tables D.Store store.old.opened) store.old.faults)
        (with_keeper (record {
          files = F.look_up files.new;
          input = S.left input.new;
          output = W.so_far output.new;
          files_faults = F.faults files.new;
          input_faults = S.faults input.new;
          output_faults = W.faults output.new;
          absences = F.absences files.new;
        }) (kept_tables D.Store store.new.opened) store.new.faults) result }
    ensures unread { IsUntouched (kind_of_words (map string_bytes words.now)) (W.so_far output.old) (W.so_far output.new) result }
    ensures sound { IsKeptSound D.Store store.new.opened → IsKeptSound D.Store store.old.opened }
    ensures same_files { F.look_up files.new ≡ F.look_up files.old }
{
    top(alloc, words, files, input, output, store)
}

// A run over empty tables.
fn run_in_memory<F: Files, S: Source, W: Sink>(
    alloc: Global,
    words: &[String],
    files: &mut F,
    input: &mut S,
    output: &mut W,
) -> Status
    ensures runs { RunsInMemory (map string_bytes words.now)
        (record {
          files = F.look_up files.old;
          input = S.left input.old;
          output = W.so_far output.old;
          files_faults = F.faults files.old;
          input_faults = S.faults input.old;
          output_faults = W.faults output.old;
          absences = F.absences files.old;
        })
        (record {
          files = F.look_up files.new;
          input = S.left input.new;
          output = W.so_far output.new;
          files_faults = F.faults files.new;
          input_faults = S.faults input.new;
          output_faults = W.faults output.new;
          absences = F.absences files.new;
        }) result }
    ensures unread { IsUntouched (kind_of_words (map string_bytes words.now)) (W.so_far output.old) (W.so_far output.new) result }
    ensures same_files { F.look_up files.new ≡ F.look_up files.old }
{
    let mut keeper = SureKeeper::new(Tables::new(alloc));
    top(alloc, words, files, input, output, &mut keeper)
}
