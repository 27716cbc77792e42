// The commands `query` and `forget`.
ghost use Rattle.std.specs.Prelude.{◌≡◌, ◌≤◌, ℕ, List, Option, [], ◌∷◌, IfOk, length};
ghost use Rattle.mk_outside.specs.declared.tables.Change.TheVariants.{PutQuery};
ghost use Rattle.mk_library.specs.Library.{LibraryView};
ghost use Rattle.mk_found.specs.declared.effect.Found.TheVariants as found;
ghost use Rattle.mk_kept.specs.Names.{IsName};
ghost use Rattle.mk_found.specs.Files.{IsFoundAs, IsShort, IsWithin, Look};
ghost use Rattle.mk_query_edits.specs.Queries.{IsForget, IsFree, IsKeep, IsTurnOfKeep, forget_changes, full_queries_text, name_held_text};
ghost use Rattle.mk_found.specs.Lines.{named_line, no_query_text};
ghost use Rattle.mk_kept.specs.QueryText.{IsQueryOfText};
ghost use Rattle.mk_found.specs.QueryFiles.{query_bytes};
ghost use Rattle.mk_found.specs.Findings.{FoundFits, MissesAt, SeeksSo, effect_of};
ghost use Rattle.mk_kept.specs.Saved.{IsMeant, IsSameSaved};

use mk_found::{
    Found, HeldQuery, QUERY_BYTES, SessionEdit, StepFail, judge_query, named, no_query, read_within,
};
use mk_kept::{Saved, SavedPending};
use mk_model::Query;
use mk_outside::{Bytes, Change, Files, Memory};
use mk_query::kept_text_is_the_query;
use mk_rgfile::kept_text_stays;
use mk_text::{kept_lines, lines};
use std::alloc::Global;

/// What `query` comes to.
pub fn keep_found<F: Files>(
    alloc: Global,
    saved: &mut Saved,
    files: &mut F,
    name: &str,
    file: &str,
) -> Result<Found, StepFail>
    requires { IsName name.now }
    ensures sought { SeeksSo (IsKeep (F.look_up files.old) saved.old.queries name.now file.now) (IsTurnOfKeep saved.old.queries name.now file.now) (F.faults files.old) (F.faults files.new) result }
    ensures fits { (library : LibraryView) → IfOk result (FoundFits library saved.new) }
    ensures same { IsSameSaved saved.old saved.new }
    ensures same_files { F.look_up files.new ≡ F.look_up files.old }
    ensures missed { MissesAt (F.look_up files.old) (IsTurnOfKeep saved.old.queries name.now file.now) (F.absences files.old) (F.absences files.new) }
{
    if saved.holds(name.as_bytes()) {
        return Ok(name_held(alloc, name)?);
    }
    if saved.is_full() {
        return Ok(full_queries(alloc)?);
    }
    let bytes = match read_within(alloc, files, file, QUERY_BYTES) {
        Ok(bytes) => bytes,
        Err(fail) => return Err(StepFail::from(fail)),
    };
    Ok(keep_file(alloc, saved, name, bytes)?)
}

// What the bytes of its file come to. None is a file over its limit.
fn keep_file(
    alloc: Global,
    saved: &mut Saved,
    name: &str,
    bytes: Option<Bytes>,
) -> Result<Found, Memory>
    requires name { IsName name.now }
    requires free { IsFree saved.old.queries name.now }
    requires within { IsWithin query_bytes bytes }
    ensures comes { (files : Option Look) (file : List ℕ) → IsFoundAs files query_bytes file bytes → IfOk result (λ found. IsKeep files saved.old.queries name.now file (effect_of found)) }
    ensures fits { (library : LibraryView) → IfOk result (FoundFits library saved.new) }
    ensures same { IsSameSaved saved.old saved.new }
{
    match judge_query(alloc, &bytes)? {
        HeldQuery::Refused(line) => Ok(Found::Refused(line)),
        HeldQuery::Query(query) => {
            let Some(text) = bytes else { unreachable!() };
            keep_query(alloc, saved, name, text.as_slice(), query)
        }
    }
}

// Keeps the lines of a text that means this query, where there is room for them.
fn keep_query(
    alloc: Global,
    saved: &mut Saved,
    name: &str,
    text: &[u8],
    query: Query,
) -> Result<Found, Memory>
    requires name { IsName name.now }
    requires free { IsFree saved.old.queries name.now }
    requires short { length text.now ≤ query_bytes }
    requires means { IsQueryOfText text.now query }
    ensures comes { (files : Option Look) (file : List ℕ) → IsShort files query_bytes file text.now → IfOk result (λ found. IsKeep files saved.old.queries name.now file (effect_of found)) }
    ensures fits { (library : LibraryView) → IfOk result (FoundFits library saved.new) }
    ensures same { IsSameSaved saved.old saved.new }
{
    kept_text_stays();
    kept_text_is_the_query();
    let lines = lines(alloc, text)?;
    let kept = Bytes::of(kept_lines(alloc, text, &lines)?);
    let Some(number) = saved.number_for(kept.as_slice()) else {
        return full_queries(alloc);
    };
    saved.reserve_query()?;
    let pending = put_pending(alloc, number, name, kept, query)?;
    let answer = named(alloc, b"kept ", name)?;
    Ok(Found::Answered(SessionEdit::OfSaved(pending), answer))
}

// The change that keeps a query.
fn put_pending(
    alloc: Global,
    number: u32,
    name: &str,
    text: Bytes,
    query: Query,
) -> Result<SavedPending, Memory>
    requires name { IsName name.now }
    requires least { 1 ≤ number }
    requires means { IsMeant text query }
    ensures { IfOk result (λ pending. pending.changes ≡ PutQuery number name.now text ∷ []) }
{
    let name = Bytes::of(Vec::from_slice(alloc, name.as_bytes())?);
    let mut changes = Vec::with_capacity(alloc, 1)?;
    changes.push(Change::PutQuery { number, name, text })?;
    let mut queries = Vec::with_capacity(alloc, 1)?;
    queries.push(query)?;
    Ok(SavedPending::of(changes, queries))
}

/// What `forget` comes to.
pub fn forget_found(alloc: Global, saved: &Saved, name: &str) -> Result<Found, Memory>
    requires { IsName name.now }
    ensures comes { IfOk result (λ found. IsForget saved.now.queries saved.now.cursors name.now (effect_of found)) }
    ensures fits { (library : LibraryView) → IfOk result (FoundFits library saved.now) }
{
    if !saved.holds(name.as_bytes()) {
        return no_query(alloc, name);
    }
    let changes = forget_changes(alloc, saved, name)?;
    let pending = SavedPending::of(changes, Vec::new(alloc));
    let answer = named(alloc, b"forgot ", name)?;
    Ok(Found::Answered(SessionEdit::OfSaved(pending), answer))
}

// The changes that drop a query: its saved searches, and then itself.
fn forget_changes(alloc: Global, saved: &Saved, name: &str) -> Result<Vec<Change>, Memory>
    ensures { IfOk result (λ changes. changes.items ≡ forget_changes name.now saved.now.cursors) }
{
    let mut changes = Vec::new(alloc);
    for row in saved.cursors() {
        if row.item.name.as_slice() == name.as_bytes() {
            changes.push(Change::DropCursor { number: row.number })?;
        }
    }
    let name = Bytes::of(Vec::from_slice(alloc, name.as_bytes())?);
    changes.push(Change::DropQuery { name })?;
    Ok(changes)
}

// The refusal of a name that is held.
fn name_held(alloc: Global, name: &str) -> Result<Found, Memory>
    ensures { IfOk result (λ f. f ≡ found.Refused (name_held_text name.now)) }
{
    Ok(Found::Refused(named(alloc, b"refused 7 name ", name)?))
}

// The refusal of a further query.
fn full_queries(alloc: Global) -> Result<Found, Memory>
    ensures { IfOk result (λ f. f ≡ found.Refused full_queries_text) }
{
    Ok(Found::Refused(Bytes::of(Vec::from_slice(alloc, b"refused 10 queries\n")?)))
}
