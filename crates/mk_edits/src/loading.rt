// The commands `load` and `replace`.
ghost use Rattle.std.specs.Prelude.{◌≡◌, ℕ, List, Option, true, IfOk, length};
ghost use Rattle.mk_outside.specs.declared.tables.Change.{Change};
ghost use Rattle.mk_kept.specs.Saved.{SavedView};
ghost use Rattle.mk_library.specs.Edits.{Replace};
ghost use Rattle.mk_library.specs.Library.{IsSame};
ghost use Rattle.mk_library.specs.Limits.{file_bytes};
ghost use Rattle.mk_library.specs.Records.{is_held};
ghost use Rattle.mk_found.specs.Files.{IsFoundAs, IsTurnOf, Look};
ghost use Rattle.mk_edits.specs.Loading.{IsEdited, IsLoad, IsReplace, IsTurnOfReplace, loaded_text, replaced_text};
ghost use Rattle.mk_found.specs.Findings.{FoundFits, MissesAt, SeeksSo, effect_of};

use crate::records::no_record;
use mk_found::{
    Found, SessionEdit, StepFail, file_line, long_molecules, put_numbered, read_within,
};
use mk_library::{FILE_BYTES, Library};
use mk_outside::{Bytes, Files, Memory};
use mk_text::put_number;
use std::alloc::Global;

/// What `load` comes to.
pub fn load_found<F: Files>(
    alloc: Global,
    library: &mut Library,
    files: &mut F,
    name: &str,
) -> Result<Found, StepFail>
    ensures sought { SeeksSo (IsLoad (F.look_up files.old) library.old.records library.old.next_record name.now) (IsTurnOf name.now) (F.faults files.old) (F.faults files.new) result }
    ensures fits { (saved : SavedView) → IfOk result (FoundFits library.new saved) }
    ensures same { IsSame library.old library.new }
    ensures same_files { F.look_up files.new ≡ F.look_up files.old }
    ensures missed { MissesAt (F.look_up files.old) (IsTurnOf name.now) (F.absences files.old) (F.absences files.new) }
{
    let bytes = match read_within(alloc, files, name, FILE_BYTES) {
        Ok(bytes) => bytes,
        Err(fail) => return Err(StepFail::from(fail)),
    };
    Ok(load_text(alloc, library, bytes)?)
}

// What the text of its file comes to. None is a file over its limit.
fn load_text(alloc: Global, library: &mut Library, bytes: Option<Bytes>) -> Result<Found, Memory>
    ensures comes { (files : Option Look) (name : List ℕ) → IsFoundAs files file_bytes name bytes → IfOk result (λ found. IsLoad files library.old.records library.old.next_record name (effect_of found)) }
    ensures fits { (saved : SavedView) → IfOk result (FoundFits library.new saved) }
    ensures same { IsSame library.old library.new }
{
    let Some(text) = bytes else {
        return Ok(Found::Refused(Bytes::of(long_molecules(alloc)?)));
    };
    match library.load(alloc, text.as_slice()) {
        Err(said) => Ok(Found::Refused(Bytes::of(file_line(alloc, said)?))),
        Ok(pending) => {
            let answer = loaded(alloc, library.next_number(), pending.changes().len())?;
            Ok(Found::Answered(SessionEdit::OfRecords(pending), Bytes::of(answer)))
        }
    }
}

// The answer of a load of so many records.
fn loaded(alloc: Global, next: u32, count: usize) -> Result<Vec<u8>, Memory>
    ensures { (changes : List Change) → length changes ≡ count → IfOk result (λ text. text.items ≡ loaded_text next changes) }
{
    if count == 0 {
        return Vec::from_slice(alloc, b"loaded 0\n");
    }
    let mut text = Vec::from_slice(alloc, b"loaded ")?;
    put_number(alloc, &mut text, count as u64)?;
    text.extend_from_slice(b" first ")?;
    put_number(alloc, &mut text, u64::from(next))?;
    text.extend_from_slice(b"\n")?;
    Ok(text)
}

/// What `replace` comes to.
pub fn replace_found<F: Files>(
    alloc: Global,
    library: &mut Library,
    files: &mut F,
    number: u32,
    name: &str,
) -> Result<Found, StepFail>
    ensures sought { SeeksSo (IsReplace (F.look_up files.old) library.old.records library.old.next_record number name.now) (IsTurnOfReplace library.old.records number name.now) (F.faults files.old) (F.faults files.new) result }
    ensures fits { (saved : SavedView) → IfOk result (FoundFits library.new saved) }
    ensures same { IsSame library.old library.new }
    ensures same_files { F.look_up files.new ≡ F.look_up files.old }
    ensures missed { MissesAt (F.look_up files.old) (IsTurnOfReplace library.old.records number name.now) (F.absences files.old) (F.absences files.new) }
{
    if !is_held(library, number) {
        return Ok(no_record(alloc, number)?);
    }
    let bytes = match read_within(alloc, files, name, FILE_BYTES) {
        Ok(bytes) => bytes,
        Err(fail) => return Err(StepFail::from(fail)),
    };
    Ok(replace_text(alloc, library, number, bytes)?)
}

fn is_held(library: &Library, number: u32) -> bool
    ensures { result ≡ is_held number library.now.records }
{
    match library.text(number) {
        Some(_) => true,
        None => false,
    }
}

// What the text of its file comes to. None is a file over its limit.
fn replace_text(
    alloc: Global,
    library: &mut Library,
    number: u32,
    bytes: Option<Bytes>,
) -> Result<Found, Memory>
    requires { is_held number library.old.records ≡ true }
    ensures comes { (files : Option Look) (name : List ℕ) → IsFoundAs files file_bytes name bytes → IfOk result (λ found. IsEdited files library.old.records library.old.next_record name (Replace number) (λ changes. replaced_text number) (effect_of found)) }
    ensures fits { (saved : SavedView) → IfOk result (FoundFits library.new saved) }
    ensures same { IsSame library.old library.new }
{
    let Some(text) = bytes else {
        return Ok(Found::Refused(Bytes::of(long_molecules(alloc)?)));
    };
    match library.replace(alloc, number, text.as_slice()) {
        Err(said) => Ok(Found::Refused(Bytes::of(file_line(alloc, said)?))),
        Ok(pending) => {
            let mut answer = Vec::new(alloc);
            put_numbered(alloc, &mut answer, b"replaced ", u64::from(number))?;
            Ok(Found::Answered(SessionEdit::OfRecords(pending), Bytes::of(answer)))
        }
    }
}
