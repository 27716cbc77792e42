// Stored rows of queries and saved searches, and the first that doesn't read.
ghost use Rattle.std.specs.Prelude.{◌≡◌, ◌≤◌, ◌++◌, ◌∷◌, [], true, false, IfOk, OnOk, length};
ghost use Rattle.mk_rgfile.specs.KeptQueries.{IsKeptText};
ghost use Rattle.mk_outside.specs.Tables.{cursor_number, query_number};
ghost use Rattle.mk_kept.specs.declared.stored_rows.BeginFail.TheVariants as begin_fail;
ghost use Rattle.mk_kept.specs.declared.stored_rows.RowKind.TheVariants as row_kind;
ghost use Rattle.mk_kept.specs.Saved.{IsMeant, most_query_bytes};
ghost use Rattle.mk_kept.specs.StoredRows.{HasQueryPlace, ReadsCursor, ReadsQuery};
ghost use Rattle.mk_kept.specs.Restored.{IsMeantBy, IsRestored, ReadsRows};

use crate::query_text::{QueryText, one_said, query_of};
use crate::saved::Saved;
use mk_model::Query;
use mk_outside::{Bytes, CursorRow, Memory, Place, QueryRow, Tables};
use mk_rgfile::kept_text_stays;
use mk_text::{kept_lines, lines};
use std::alloc::Global;
use thiserror::Error;

/// A kind of row.
#[derive(Clone, Copy, Debug, PartialEq, Eq)]
pub enum RowKind {
    Records,
    Queries,
    Cursors,
}

/// Why no session was begun.
#[derive(Clone, Copy, Debug, PartialEq, Eq, Error)]
pub enum BeginFail {
    #[error("the keeper can't be loaded")]
    Store,
    /// This is the first row that doesn't read.
    #[error("the row {number} of {kind:?} doesn't read")]
    BadStore { kind: RowKind, number: u32 },
    #[error("no memory for the session")]
    Memory,
}

impl From<Memory> for BeginFail {
    ghost from_gives = { λ _ fail. fail ≡ begin_fail.Memory };

    fn from(_: Memory) -> Self {
        BeginFail::Memory
    }
}

/// The queries and saved searches of tables, or the first row of theirs that doesn't read, where
/// the records read.
pub fn saved_of(alloc: Global, tables: &Tables) -> Result<Saved, BeginFail>
    ensures { IsRestored tables.now result }
{
    let mut saved = Saved::new(alloc, tables.next_cursor);
    if let Err(fail) = read_queries(alloc, &mut saved, tables.queries.as_slice()) {
        return Err(fail);
    }
    if let Err(fail) = read_cursors(alloc, &mut saved, tables.cursors.as_slice()) {
        return Err(fail);
    }
    Ok(saved)
}

fn read_queries(alloc: Global, saved: &mut Saved, rows: &[QueryRow]) -> Result<(), BeginFail>
    requires none { saved.old.queries ≡ [] }
    ensures read { ReadsRows ReadsQuery query_number row_kind.Queries rows.now result }
    ensures rows { OnOk result (saved.new.queries ≡ rows.now) }
    ensures cursors { saved.new.cursors ≡ saved.old.cursors }
    ensures next { saved.new.next_cursor ≡ saved.old.next_cursor }
{
    for row in rows {
        if !saved.has_query_place(row) {
            return Err(bad_row(RowKind::Queries, row.number));
        }
        let Some(query) = query_meant(alloc, row.text.as_slice())? else {
            return Err(bad_row(RowKind::Queries, row.number));
        };
        keep_query(alloc, saved, row, query)?;
    }
    Ok(())
}

// Keeps a stored query behind those that are held.
fn keep_query(alloc: Global, saved: &mut Saved, row: &QueryRow, query: Query) -> Result<(), Memory>
    requires place { HasQueryPlace saved.old.queries row.now }
    requires meant { IsMeant row.now.text query }
    ensures rows { OnOk result (saved.new.queries ≡ saved.old.queries ++ row.now ∷ []) }
    ensures cursors { saved.new.cursors ≡ saved.old.cursors }
    ensures next { saved.new.next_cursor ≡ saved.old.next_cursor }
{
    let name = Vec::from_slice(alloc, row.name.as_slice())?;
    let text = Bytes::of(Vec::from_slice(alloc, row.text.as_slice())?);
    saved.reserve_query()?;
    saved.put_query(row.number, name, text, query);
    Ok(())
}

fn read_cursors(alloc: Global, saved: &mut Saved, rows: &[CursorRow]) -> Result<(), BeginFail>
    requires none { saved.old.cursors ≡ [] }
    ensures read { ReadsRows (ReadsCursor saved.old.queries saved.old.next_cursor) cursor_number row_kind.Cursors rows.now result }
    ensures rows { OnOk result (saved.new.cursors ≡ rows.now) }
    ensures queries { saved.new.queries ≡ saved.old.queries }
    ensures next { saved.new.next_cursor ≡ saved.old.next_cursor }
{
    for row in rows {
        if !saved.has_cursor_place(row) {
            return Err(bad_row(RowKind::Cursors, row.number));
        }
        keep_cursor(alloc, saved, row)?;
    }
    Ok(())
}

// Keeps a stored search behind those that are held.
fn keep_cursor(alloc: Global, saved: &mut Saved, row: &CursorRow) -> Result<(), Memory>
    requires { ReadsCursor saved.old.queries saved.old.next_cursor saved.old.cursors row.now }
    ensures rows { OnOk result (saved.new.cursors ≡ saved.old.cursors ++ row.now ∷ []) }
    ensures queries { saved.new.queries ≡ saved.old.queries }
    ensures next { saved.new.next_cursor ≡ saved.old.next_cursor }
{
    let name = Bytes::of(Vec::from_slice(alloc, row.name.as_slice())?);
    let place = Place::of(Vec::from_slice(alloc, row.place.as_slice())?);
    saved.reserve_cursor()?;
    saved.put_cursor(row.number, name, place);
    Ok(())
}

fn bad_row(kind: RowKind, number: u32) -> BeginFail
    ensures { result ≡ begin_fail.BadStore kind number }
{
    BeginFail::BadStore { kind, number }
}

// What a stored text means, or None where it isn't that of a query row.
fn query_meant(alloc: Global, text: &[u8]) -> Result<Option<Query>, Memory>
    requires { length text.now ≤ most_query_bytes }
    ensures { IfOk result (IsMeantBy text.now) }
{
    one_said();
    if !is_kept(alloc, text)? {
        return Ok(None);
    }
    match query_of(alloc, text)? {
        QueryText::Compiled(query) => Ok(Some(query)),
        _ => Ok(None),
    }
}

// Whether each line of the text ends with LF and without CR, so that keeping its lines leaves it as
// it is.
fn is_kept(alloc: Global, text: &[u8]) -> Result<bool, Memory>
    ensures kept { IfOk result (λ kept. kept ≡ true → IsKeptText text.now) }
    ensures other { IfOk result (λ kept. kept ≡ false → ¬ (IsKeptText text.now)) }
{
    kept_text_stays();
    let lines = lines(alloc, text)?;
    let kept = kept_lines(alloc, text, &lines)?;
    Ok(kept.as_slice() == text)
}
