// A whole run, with a store or without one.
ghost use Rattle.std.specs.Prelude.{◌≡◌, map};
ghost use Rattle.std.specs.String.{string_bytes};
ghost use Rattle.mk_words.specs.Commands.{store_path};
ghost use Rattle.mk_sqlite.specs.Keeper.{kept_tables, IsKeptSound};
ghost use Rattle.markush_session.specs.Runs.{Runs, RunsInMemory, RunsOverStore, SpeaksOver};

use mk_outside::{Files, SureKeeper, Tables};
use mk_session::{Status, store_word};
use mk_sqlite::SqlKeeper;
use mk_talk::{Talk, hold};
use sqlite::{Alter, Start};
use std::alloc::Global;

/// Holds a session over the store that the words name, or over empty tables that are let go at the
/// end. `start` stands for what the store's files hold. Which tables a run over a store has is said by
/// `run_over`.
pub fn run<F: Files, T: Talk, B: Start>(
    rt: &HostRuntime,
    alloc: Global,
    words: &[String],
    files: &mut F,
    talk: &mut T,
    start: B,
) -> Status
    ensures runs { Runs (store_path (map string_bytes words.now)) (map string_bytes words.now)
        (record { files = F.look_up files.old; history = T.history talk.old; files_faults = F.faults files.old })
        (record { files = F.look_up files.new; history = T.history talk.new; files_faults = F.faults files.new }) result }
    ensures same_files { F.look_up files.new ≡ F.look_up files.old }
{
    match store_word(words) {
        Some(path) => run_over_store(rt, alloc, path, words, files, talk, start),
        None => run_in_memory(alloc, words, files, talk),
    }
}

// A run over the file of this path.
fn run_over_store<F: Files, T: Talk, B: Start>(
    rt: &HostRuntime,
    alloc: Global,
    path: &str,
    words: &[String],
    files: &mut F,
    talk: &mut T,
    start: B,
) -> Status
    ensures runs { RunsOverStore (map string_bytes words.now)
        (record { files = F.look_up files.old; history = T.history talk.old; files_faults = F.faults files.old })
        (record { files = F.look_up files.new; history = T.history talk.new; files_faults = F.faults files.new }) result }
    ensures same_files { F.look_up files.new ≡ F.look_up files.old }
{
    let mut store = SqlKeeper::at(rt, path, start);
    run_over(alloc, words, files, talk, &mut store)
}

/// A run over a keeper of any database. What it says of tables is said of those that the keeper
/// tells.
pub fn run_over<F: Files, T: Talk, D: Alter>(
    alloc: Global,
    words: &[String],
    files: &mut F,
    talk: &mut T,
    store: &mut SqlKeeper<D>,
) -> Status
    ensures runs { SpeaksOver (IsKeptSound D.Store store.new.opened) (map string_bytes words.now)
        (record { files = F.look_up files.old; history = T.history talk.old; files_faults = F.faults files.old })
        (record { files = F.look_up files.new; history = T.history talk.new; files_faults = F.faults files.new })
        (kept_tables D.Store store.old.opened) (kept_tables D.Store store.new.opened) store.old.faults store.new.faults result }
    ensures sound { IsKeptSound D.Store store.new.opened → IsKeptSound D.Store store.old.opened }
    ensures same_files { F.look_up files.new ≡ F.look_up files.old }
{
    hold(alloc, words, files, talk, store)
}

// A run over empty tables.
fn run_in_memory<F: Files, T: Talk>(
    alloc: Global,
    words: &[String],
    files: &mut F,
    talk: &mut T,
) -> Status
    ensures runs { RunsInMemory (map string_bytes words.now)
        (record { files = F.look_up files.old; history = T.history talk.old; files_faults = F.faults files.old })
        (record { files = F.look_up files.new; history = T.history talk.new; files_faults = F.faults files.new }) result }
    ensures same_files { F.look_up files.new ≡ F.look_up files.old }
{
    let mut keeper = SureKeeper::new(Tables::new(alloc));
    hold(alloc, words, files, talk, &mut keeper)
}
