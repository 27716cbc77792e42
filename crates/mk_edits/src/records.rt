// The commands `show`, `remove` and `list`.
ghost use Rattle.std.specs.Prelude.{◌≡◌, ◌++◌, [], IfOk, OnOk, codes, length};
ghost use Rattle.std.specs.List.{flat_map};
ghost use Rattle.mk_library.specs.Library.{IsSame};
ghost use Rattle.mk_found.specs.declared.effect.Found.TheVariants as found;
ghost use Rattle.mk_found.specs.Effects.{Answers};
ghost use Rattle.mk_edits.specs.Records.{IsRemove, IsShow, cursor_line, list_text, name_line, next_line, no_record_text, query_line, record_line, record_text, row_line};
ghost use Rattle.mk_found.specs.Lines.{numbered_line};
ghost use Rattle.mk_found.specs.Findings.{FoundFits, effect_of, stands_for};
ghost use Rattle.mk_kept.specs.Saved.{SavedView, cursor_row, cursors_of, rows_of};

use indexmap::IndexMap;
use mk_found::{Found, SessionEdit, put_numbered};
use mk_kept::{Kept, Saved, SavedSearch};
use mk_library::{Library, LoadRefusal};
use mk_outside::{Bytes, Memory};
use mk_rows::Numbered;
use mk_text::{lines, put_number};
use std::alloc::Global;

/// What `show` comes to.
pub fn show_found(alloc: Global, library: &Library, number: u32) -> Result<Found, Memory>
    ensures comes { IfOk result (λ found. IsShow library.now.records number (effect_of found)) }
    ensures fits { (saved : SavedView) → IfOk result (FoundFits library.now saved) }
{
    match library.text(number) {
        None => no_record(alloc, number),
        Some(text) => Ok(Found::Answered(SessionEdit::Unchanged, shown(alloc, number, text)?)),
    }
}

// The number of the record, how many lines its text has, and the text.
fn shown(alloc: Global, number: u32, text: &[u8]) -> Result<Bytes, Memory>
    ensures { IfOk result (λ bytes. bytes ≡ record_text number text.now) }
{
    let count = lines(alloc, text)?.len();
    let mut answer = Vec::from_slice(alloc, b"record ")?;
    put_number(alloc, &mut answer, u64::from(number))?;
    answer.extend_from_slice(b" ")?;
    put_number(alloc, &mut answer, count as u64)?;
    answer.extend_from_slice(b"\n")?;
    answer.extend_from_slice(text)?;
    Ok(Bytes::of(answer))
}

/// What `remove` comes to.
pub fn remove_found(alloc: Global, library: &mut Library, number: u32) -> Result<Found, Memory>
    ensures comes { IfOk result (λ found. IsRemove library.old.records number (effect_of found)) }
    ensures fits { (saved : SavedView) → IfOk result (FoundFits library.new saved) }
    ensures same { IsSame library.old library.new }
{
    match library.remove(alloc, number) {
        Err(LoadRefusal::NoRecord) => no_record(alloc, number),
        Err(_) => Err(Memory),
        Ok(pending) => {
            let mut text = Vec::new(alloc);
            put_numbered(alloc, &mut text, b"removed ", u64::from(number))?;
            Ok(Found::Answered(SessionEdit::OfRecords(pending), Bytes::of(text)))
        }
    }
}

/// The refusal of a record that isn't held.
pub fn no_record(alloc: Global, number: u32) -> Result<Found, Memory>
    ensures { IfOk result (λ f. f ≡ found.Refused (no_record_text number)) }
{
    let mut text = Vec::new(alloc);
    put_numbered(alloc, &mut text, b"refused 6 record ", u64::from(number))?;
    Ok(Found::Refused(Bytes::of(text)))
}

/// What `list` comes to.
pub fn list_found(alloc: Global, library: &Library, saved: &Saved) -> Result<Found, Memory>
    ensures comes { IfOk result (λ found. effect_of found ≡ Answers [] (list_text (stands_for library.now saved.now))) }
    ensures fits { IfOk result (FoundFits library.now saved.now) }
{
    let mut text = Vec::new(alloc);
    put_records(alloc, &mut text, library)?;
    put_queries(alloc, &mut text, saved.queries())?;
    put_cursors(alloc, &mut text, saved.cursors())?;
    put_next(alloc, &mut text, library.next_number(), saved.next_cursor())?;
    Ok(Found::Answered(SessionEdit::Unchanged, Bytes::of(text)))
}

fn put_records(alloc: Global, text: &mut Vec<u8>, library: &Library) -> Result<(), Memory>
    ensures { OnOk result (text.new.items ≡ text.old.items ++ (numbered_line (codes "records ") (length library.now.records) ++ flat_map record_line library.now.records)) }
{
    put_rows(alloc, text, library.texts())
}

fn put_rows(alloc: Global, text: &mut Vec<u8>, rows: &[Numbered<Bytes>]) -> Result<(), Memory>
    ensures { OnOk result (text.new.items ≡ text.old.items ++ (numbered_line (codes "records ") (length rows.now) ++ flat_map row_line rows.now)) }
{
    put_numbered(alloc, text, b"records ", rows.len() as u64)?;
    for row in rows {
        put_numbered(alloc, text, b"record ", u64::from(row.number))?;
    }
    Ok(())
}

fn put_queries(
    alloc: Global,
    text: &mut Vec<u8>,
    queries: &IndexMap<Vec<u8>, Kept>,
) -> Result<(), Memory>
    ensures { OnOk result (text.new.items ≡ text.old.items ++ (numbered_line (codes "queries ") (length (rows_of queries.now.entries)) ++ flat_map query_line (rows_of queries.now.entries))) }
{
    put_numbered(alloc, text, b"queries ", queries.len() as u64)?;
    for (name, _) in queries {
        put_name(text, name)?;
    }
    Ok(())
}

fn put_name(text: &mut Vec<u8>, name: &[u8]) -> Result<(), Memory>
    ensures { OnOk result (text.new.items ≡ text.old.items ++ name_line name.now) }
{
    text.extend_from_slice(b"query ")?;
    text.extend_from_slice(name)?;
    text.extend_from_slice(b"\n")
}

fn put_cursors(
    alloc: Global,
    text: &mut Vec<u8>,
    rows: &[Numbered<SavedSearch>],
) -> Result<(), Memory>
    ensures { OnOk result (text.new.items ≡ text.old.items ++ (numbered_line (codes "cursors ") (length (cursors_of rows.now)) ++ flat_map cursor_line (cursors_of rows.now))) }
{
    put_numbered(alloc, text, b"cursors ", rows.len() as u64)?;
    for row in rows {
        put_cursor(alloc, text, row)?;
    }
    Ok(())
}

fn put_cursor(alloc: Global, text: &mut Vec<u8>, row: &Numbered<SavedSearch>) -> Result<(), Memory>
    ensures { OnOk result (text.new.items ≡ text.old.items ++ cursor_line (cursor_row row.now)) }
{
    text.extend_from_slice(b"cursor ")?;
    put_number(alloc, text, u64::from(row.number))?;
    text.extend_from_slice(b" ")?;
    text.extend_from_slice(row.item.name.as_slice())?;
    text.extend_from_slice(b"\n")
}

// The numbers that come next.
fn put_next(
    alloc: Global,
    text: &mut Vec<u8>,
    record_number: u32,
    cursor_number: u32,
) -> Result<(), Memory>
    ensures { OnOk result (text.new.items ≡ text.old.items ++ next_line record_number cursor_number) }
{
    text.extend_from_slice(b"next ")?;
    put_number(alloc, text, u64::from(record_number))?;
    text.extend_from_slice(b" ")?;
    put_number(alloc, text, u64::from(cursor_number))?;
    text.extend_from_slice(b"\n")
}
