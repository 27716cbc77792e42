// The command `match`.
ghost use Rattle.std.specs.Prelude.{◌≡◌, ◌∷◌, [], ℕ, List, Option, IfOk};
ghost use Rattle.mk_library.specs.FirstRefusal.{HoldsMolecule};
ghost use Rattle.mk_library.specs.Limits.{file_bytes};
ghost use Rattle.mk_found.specs.Files.{IsFoundAs, IsTurnOf, IsWithin, Look};
ghost use Rattle.mk_effects.specs.Match.{IsMatch, IsSearchOfFile, IsTurnOfMatch, ListsKeys};
ghost use Rattle.mk_found.specs.QueryFiles.{IsHeldQuery, query_bytes};
ghost use Rattle.mk_found.specs.Findings.{MissesAt, SeeksSo, effect_of};

use crate::hit_lines::{hits_answer, stop_of};
use mk_found::{
    Found, HeldQuery, QUERY_BYTES, SessionEdit, StepFail, file_line, judge_query, long_molecules,
    read_within,
};
use mk_index::Shelf;
use mk_library::{FILE_BYTES, OneRecord, one_molecule};
use mk_model::{Mol, Query, Steps};
use mk_outside::{Bytes, Files, Memory};
use mk_search::page;
use std::alloc::Global;
use std::sync::ledger::Ledger;

// How many hits are listed at most.
const MOST_HITS: usize = 10_000;

/// Reads the query's file, and where it isn't refused the molecules'.
pub fn match_found<F: Files, L: Ledger>(
    alloc: Global,
    files: &mut F,
    query: &str,
    molecules: &str,
    steps: &mut Steps<L>,
) -> Result<Found, StepFail>
    ensures sought { SeeksSo (IsMatch (F.look_up files.old) query.now molecules.now) (IsTurnOfMatch (F.look_up files.old) query.now molecules.now)
        (F.faults files.old) (F.faults files.new) result }
    ensures same_files { F.look_up files.new ≡ F.look_up files.old }
    ensures missed { MissesAt (F.look_up files.old) (IsTurnOfMatch (F.look_up files.old) query.now molecules.now) (F.absences files.old) (F.absences files.new) }
{
    let bytes = match read_within(alloc, files, query, QUERY_BYTES) {
        Ok(bytes) => bytes,
        Err(fail) => return Err(StepFail::from(fail)),
    };
    let held = query_held(alloc, bytes)?;
    match held {
        HeldQuery::Refused(line) => Ok(Found::Refused(line)),
        HeldQuery::Query(wanted) => search_file(alloc, files, &wanted, molecules, steps),
    }
}

// What is made of the query's file, which isn't kept.
fn query_held(alloc: Global, bytes: Option<Bytes>) -> Result<HeldQuery, Memory>
    requires { IsWithin query_bytes bytes }
    ensures { IfOk result (IsHeldQuery bytes) }
{
    judge_query(alloc, &bytes)
}

// Reads the molecules' file and searches it.
fn search_file<F: Files, L: Ledger>(
    alloc: Global,
    files: &mut F,
    wanted: &Query,
    molecules: &str,
    steps: &mut Steps<L>,
) -> Result<Found, StepFail>
    ensures sought { SeeksSo (IsSearchOfFile wanted.now (F.look_up files.old) molecules.now) (IsTurnOf molecules.now) (F.faults files.old) (F.faults files.new) result }
    ensures same_files { F.look_up files.new ≡ F.look_up files.old }
    ensures missed { MissesAt (F.look_up files.old) (IsTurnOf molecules.now) (F.absences files.old) (F.absences files.new) }
{
    let bytes = match read_within(alloc, files, molecules, FILE_BYTES) {
        Ok(bytes) => bytes,
        Err(fail) => return Err(StepFail::from(fail)),
    };
    Ok(search_text(alloc, wanted, bytes, steps)?)
}

// What the bytes of its file come to. None is a file over its limit.
fn search_text<L: Ledger>(
    alloc: Global,
    wanted: &Query,
    bytes: Option<Bytes>,
    steps: &mut Steps<L>,
) -> Result<Found, Memory>
    ensures { (files : Option Look) (name : List ℕ) → IsFoundAs files file_bytes name bytes → IfOk result (λ found. IsSearchOfFile wanted.now files name (effect_of found)) }
{
    let Some(text) = bytes else {
        return Ok(Found::Refused(Bytes::of(long_molecules(alloc)?)));
    };
    match one_molecule(alloc, text.as_slice()) {
        Err(said) => Ok(Found::Refused(Bytes::of(file_line(alloc, said)?))),
        Ok(one) => {
            let OneRecord { text: _, mol } = one;
            list_keys(alloc, wanted, mol, steps)
        }
    }
}

// The hits in the molecule.
fn list_keys<L: Ledger>(
    alloc: Global,
    wanted: &Query,
    mol: Mol,
    steps: &mut Steps<L>,
) -> Result<Found, Memory>
    ensures { (bytes : List ℕ) → HoldsMolecule bytes mol → IfOk result (λ found. ListsKeys wanted.now bytes (effect_of found)) }
{
    let shelf = shelf_of(alloc, mol)?;
    let listed = page(alloc, &shelf, wanted, &[], MOST_HITS, steps)?;
    let answer = hits_answer(alloc, wanted, listed.hits.as_slice(), stop_of(&listed, 0))?;
    Ok(Found::Answered(SessionEdit::Unchanged, Bytes::of(answer)))
}

// The shelf of one molecule, which is record 1.
fn shelf_of(alloc: Global, mol: Mol) -> Result<Shelf, Memory>
    ensures { IfOk result (λ shelf. shelf.rows ≡ record { number = 1; item = mol } ∷ []) }
{
    let mut shelf = Shelf::new(alloc);
    shelf.reserve(1)?;
    shelf.insert(1, mol);
    Ok(shelf)
}
