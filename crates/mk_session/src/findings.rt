// What a command comes to. A further command is a further function and a further arm here.
ghost use Rattle.std.specs.Prelude.{◌≡◌, IfOk, Some};
ghost use Rattle.mk_words.specs.Commands.{CanAsk};
ghost use Rattle.mk_kept.specs.Asked.{IsBudget, IsLimit};
ghost use Rattle.mk_library.specs.Library.{IsSame};
ghost use Rattle.mk_kept.specs.Saved.{IsSameSaved};
ghost use Rattle.mk_drill.specs.Answer.{IsDrillAnswer};
ghost use Rattle.mk_session.specs.Step.{Reaches};
ghost use Rattle.mk_found.specs.Findings.{FoundFits, MissesAt, effect_of, stands_for};
ghost use Rattle.mk_session.specs.Stepping.{Seeks, found_without_files};
ghost use Rattle.mk_session.specs.StepTicks.{BeginsOfCommand};

use mk_drill::drill_found;
use mk_edits::{list_found, load_found, remove_found, replace_found, show_found};
use mk_effects::{enum_found, match_found, resume_found, search_found};
use mk_found::{Found, StepFail};
use mk_kept::Saved;
use mk_library::Library;
use mk_model::{Memory, Steps};
use mk_outside::Files;
use mk_query_edits::{forget_found, keep_found};
use mk_rtable::table_found;
use mk_words::Command;
use std::alloc::Global;
use std::sync::ledger::Ledger;

/// What the command comes to, found before anything is changed.
pub fn found_of<F: Files, L: Ledger>(
    alloc: Global,
    library: &mut Library,
    saved: &mut Saved,
    files: &mut F,
    command: &Command,
    steps: &mut Steps<L>,
) -> Result<Found, StepFail>
    requires { CanAsk command.now }
    ensures sought { Seeks (F.look_up files.old) (stands_for library.old saved.old) (Some command.now) (F.faults files.old) (F.faults files.new) result }
    ensures begins { IfOk result (λ found. BeginsOfCommand (stands_for library.old saved.old) command.now (effect_of found) steps.old steps.new) }
    ensures fits { IfOk result (FoundFits library.new saved.new) }
    ensures same { IsSame library.old library.new }
    ensures same_saved { IsSameSaved saved.old saved.new }
    ensures same_files { F.look_up files.new ≡ F.look_up files.old }
    ensures missed { MissesAt (F.look_up files.old) (Reaches (F.look_up files.old) (stands_for library.old saved.old) (Some command.now)) (F.absences files.old) (F.absences files.new) }
{
    match command {
        Command::Match { query, molecules } => {
            match_found(alloc, files, query.as_str(), molecules.as_str(), steps)
        }
        Command::Load { file } => load_found(alloc, library, files, file.as_str()),
        Command::Replace { number, file } => {
            replace_found(alloc, library, files, *number, file.as_str())
        }
        Command::Remove { number } => without_files(remove_found(alloc, library, *number)),
        Command::Show { number } => without_files(show_found(alloc, library, *number)),
        Command::List => without_files(list_found(alloc, library, saved)),
        Command::Query { name, file } => {
            keep_found(alloc, saved, files, name.as_str(), file.as_str())
        }
        Command::Forget { name } => without_files(forget_found(alloc, saved, name.as_str())),
        Command::Search {
            name,
            limit,
            budget,
        } => {
            let name = name.as_str();
            without_files(search_found(alloc, library, saved, name, *limit, *budget, steps))
        }
        Command::Resume {
            cursor,
            limit,
            budget,
        } => without_files(resume_found(alloc, library, saved, *cursor, *limit, *budget, steps)),
        Command::Table { name } => without_files(table_found(
            alloc,
            library,
            saved,
            name.as_str(),
            steps,
        )),
        Command::Enum { name, limit, from } => {
            without_files(enum_found(alloc, saved, name.as_str(), *limit, from.as_slice()))
        }
        Command::Drill { start, count } => without_files(drill_found(alloc, *start, *count)),
    }
}

// What a command that reads no file comes to, as a step: it fails for want of memory alone. As a
// function it spares `found_of` a way out for each of these commands.
#[tactic(auto, unfolding(crate::specs::Stepping::found_without_files))]
fn without_files(found: Result<Found, Memory>) -> Result<Found, StepFail>
    ensures { result ≡ found_without_files found }
{
    match found {
        Ok(found) => Ok(found),
        Err(Memory) => Err(StepFail::Memory),
    }
}
