// One command on a session.
ghost use Rattle.std.specs.Prelude.{◌≡◌, ◌++◌, IfOk, Some, OnErr, OnOk};
ghost use Rattle.mk_outside.specs.Told.{committed};
ghost use Rattle.mk_library.specs.Library.{LibraryView};
ghost use Rattle.mk_library.specs.Pending.{PendingFits};
ghost use Rattle.mk_kept.specs.Saved.{SavedView};
ghost use Rattle.mk_kept.specs.SavedPending.{SavedFits};
ghost use Rattle.mk_words.specs.Commands.{CanAsk};
ghost use Rattle.mk_session.specs.Step.{Reaches};
ghost use Rattle.mk_session.specs.Stepping.{ChangeCounts, IsStepped, StepCounts};
ghost use Rattle.mk_session.specs.StepTicks.{BeginsOfDone};
ghost use Rattle.mk_found.specs.Findings.{EditFits, MissesAt, changes_of, stands_for};

use crate::findings::found_of;
use crate::session::Session;
use crate::{Command, Ended, StepFail};
use mk_found::{Found, SessionEdit};
use mk_kept::{Saved, SavedPending};
use mk_library::{Library, Pending, records_change_alone};
use mk_model::Steps;
use mk_outside::{Bytes, Files, KeepFail, Keeper};
use std::alloc::Global;
use std::sync::ledger::Ledger;

impl Session {
    /// Does one command and appends its answer. After a failure the session and the answer are as
    /// before.
    pub fn step<F: Files, K: Keeper, L: Ledger>(
        &mut self,
        alloc: Global,
        files: &mut F,
        keeper: &mut K,
        command: &Command,
        answer: &mut Vec<u8>,
        steps: &mut Steps<L>,
    ) -> Result<Ended, StepFail>
        requires { CanAsk command.now }
        ensures stepped { IsStepped (F.look_up files.old) self.old self.new (Some command.now) answer.old.items answer.new.items result }
        ensures begins { IfOk result (BeginsOfDone (F.look_up files.old) self.old self.new command.now answer.old.items answer.new.items steps.old steps.new) }
        ensures kept { K.sound keeper.new → K.tables keeper.old ≡ Some self.old → K.tables keeper.new ≡ Some self.new }
        ensures sound { K.sound keeper.new → K.sound keeper.old }
        ensures counted { StepCounts (F.look_up files.old) self.old (Some command.now) (F.faults files.old) (F.faults files.new) (K.faults keeper.old) (K.faults keeper.new) result }
        ensures same_files { F.look_up files.new ≡ F.look_up files.old }
        ensures missed { MissesAt (F.look_up files.old) (Reaches (F.look_up files.old) self.old (Some command.now)) (F.absences files.old) (F.absences files.new) }
    {
        match found_of(
            alloc,
            &mut self.library,
            &mut self.saved,
            files,
            command,
            steps,
        )? {
            Found::Refused(line) => {
                answer.extend_from_slice(line.as_slice())?;
                Ok(Ended::Refused)
            }
            Found::Answered(edit, text) => {
                fulfil(
                    alloc,
                    &mut self.library,
                    &mut self.saved,
                    keeper,
                    edit,
                    &text,
                    answer,
                )?;
                Ok(Ended::Done)
            }
        }
    }
}

// Appends the text and makes the edit, or neither.
fn fulfil<K: Keeper>(
    alloc: Global,
    library: &mut Library,
    saved: &mut Saved,
    keeper: &mut K,
    edit: SessionEdit,
    text: &Bytes,
    answer: &mut Vec<u8>,
) -> Result<(), KeepFail>
    requires { EditFits library.old saved.old edit }
    ensures tables { stands_for library.new saved.new ≡ committed (changes_of edit) (stands_for library.old saved.old) result }
    ensures answer_ok { OnOk result (answer.new.items ≡ answer.old.items ++ text.now) }
    ensures answer_err { OnErr result (answer.new.items ≡ answer.old.items) }
    ensures kept { K.sound keeper.new → K.tables keeper.old ≡ Some (stands_for library.old saved.old) → K.tables keeper.new ≡ Some (stands_for library.new saved.new) }
    ensures sound { K.sound keeper.new → K.sound keeper.old }
    ensures counted { ChangeCounts (changes_of edit) (K.faults keeper.old) (K.faults keeper.new) result }
{
    let before = answer.len();
    answer.extend_from_slice(text.as_slice())?;
    let changed = change(alloc, library, saved, keeper, edit);
    if changed.is_err() {
        answer.truncate(before);
    }
    changed
}

// Makes the edit: nothing, or a pending change.
fn change<K: Keeper>(
    alloc: Global,
    library: &mut Library,
    saved: &mut Saved,
    keeper: &mut K,
    edit: SessionEdit,
) -> Result<(), KeepFail>
    requires { EditFits library.old saved.old edit }
    ensures tables { stands_for library.new saved.new ≡ committed (changes_of edit) (stands_for library.old saved.old) result }
    ensures kept { K.sound keeper.new → K.tables keeper.old ≡ Some (stands_for library.old saved.old) → K.tables keeper.new ≡ Some (stands_for library.new saved.new) }
    ensures sound { K.sound keeper.new → K.sound keeper.old }
    ensures counted { ChangeCounts (changes_of edit) (K.faults keeper.old) (K.faults keeper.new) result }
{
    match edit {
        SessionEdit::Unchanged => Ok(()),
        SessionEdit::OfRecords(pending) => keep_records(alloc, library, keeper, pending),
        SessionEdit::OfSaved(pending) => keep_saved(alloc, saved, keeper, pending),
    }
}

// Commits the changes, where there are any, and makes them here. Nothing behind the commit takes
// memory.
fn keep_records<K: Keeper>(
    alloc: Global,
    library: &mut Library,
    keeper: &mut K,
    pending: Pending,
) -> Result<(), KeepFail>
    requires { PendingFits library.old pending }
    ensures tables { (saved : SavedView) → stands_for library.new saved ≡ committed pending.changes (stands_for library.old saved) result }
    ensures kept { K.sound keeper.new → (saved : SavedView) → K.tables keeper.old ≡ Some (stands_for library.old saved) → K.tables keeper.new ≡ Some (stands_for library.new saved) }
    ensures sound { K.sound keeper.new → K.sound keeper.old }
    ensures counted { ChangeCounts pending.changes (K.faults keeper.old) (K.faults keeper.new) result }
{
    if pending.changes().len() == 0 {
        return Ok(());
    }
    keeper.commit(alloc, pending.changes())?;
    records_change_alone();
    library.install(pending);
    Ok(())
}

// The same of queries and saved searches.
fn keep_saved<K: Keeper>(
    alloc: Global,
    saved: &mut Saved,
    keeper: &mut K,
    pending: SavedPending,
) -> Result<(), KeepFail>
    requires { SavedFits saved.old pending }
    ensures tables { (library : LibraryView) → stands_for library saved.new ≡ committed pending.changes (stands_for library saved.old) result }
    ensures kept { K.sound keeper.new → (library : LibraryView) → K.tables keeper.old ≡ Some (stands_for library saved.old) → K.tables keeper.new ≡ Some (stands_for library saved.new) }
    ensures sound { K.sound keeper.new → K.sound keeper.old }
    ensures counted { ChangeCounts pending.changes (K.faults keeper.old) (K.faults keeper.new) result }
{
    let changes = pending.changes();
    if changes.is_empty() {
        return Ok(());
    }
    keeper.commit(alloc, changes)?;
    saved.install(pending);
    Ok(())
}
