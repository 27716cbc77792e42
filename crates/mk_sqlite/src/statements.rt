// The statements, each with a function of its own. What each does to the told tables is its clause
// `inside`.
ghost use Rattle.std.specs.Prelude.{◌≡◌, ◌≤◌, ◌<◌, ◌+◌, ℕ, pos, max, [], Ok, Some, IsTrue, IfOk, slice_index};
ghost use Rattle.sqlite_trees.specs.declared.store.Shape.TheVariants.{Table};
ghost use Rattle.sqlite_trees.specs.View.{IsShaped};
ghost use Rattle.sqlite.specs.State.{Survives, Executes, Shown};
ghost use Rattle.sqlite.specs.Held.{state};
ghost use Rattle.sqlite.specs.Values.{bound};
ghost use Rattle.std.specs.Prelude.{List};
ghost use Rattle.mk_outside.specs.declared.tables.Tables.{Tables};
ghost use Rattle.mk_outside.specs.Rows.{put, without};
ghost use Rattle.mk_outside.specs.Tables.{record_number, query_number, cursor_number, without_name};
ghost use Rattle.mk_sqlite.specs.Layout.{all_tables};
ghost use Rattle.mk_sqlite.specs.Told.{spelt_place, record_in, query_in, cursor_in, next_in, AreRead};
ghost use Rattle.mk_sqlite.specs.Steps.{HasTables, Inside, Changes, Moves, with_one, with_two, with_three, with_all};

use crate::fails::fail_of;
use crate::stored::{cursors_of, next_of, queries_of, records_of};
use mk_outside::{CursorRows, KeepFail, QueryRows, RecordRows};
use sqlite::{Alter, Row, Transaction, params};
use sqlite_value::value::ValueRef;
use std::alloc::Global;

// A statement is sent.
fn send<S: Alter>(
    transaction: &mut Transaction<'_, S>,
    text: &str,
    params: &[ValueRef<'_>],
) -> Result<(), KeepFail>
    ensures same_reference { transaction.new.conn.ghost_name ≡ transaction.old.conn.ghost_name }
    ensures survives { Survives (state S.Store transaction.old.conn.now) (state S.Store transaction.new.conn.now) (λ _. ⊥) }
    ensures inside { Inside (state S.Store transaction.old.conn.now) (state S.Store transaction.new.conn.now) result
        (λ _. (count : ℕ) × Executes text.now (bound params.now) (state S.Store transaction.old.conn.now) (state S.Store transaction.new.conn.now) (Ok count) × IsTrue (state S.Store transaction.old.conn.now).is_open) }
{
    match transaction.execute(text, params) {
        Ok(_) => Ok(()),
        Err(error) => Err(fail_of(error)),
    }
}

// What a query shows.
fn show<S: Alter>(
    transaction: &mut Transaction<'_, S>,
    text: &str,
    params: &[ValueRef<'_>],
) -> Result<Vec<Row>, KeepFail>
    ensures same_reference { transaction.new.conn.ghost_name ≡ transaction.old.conn.ghost_name }
    ensures survives { Survives (state S.Store transaction.old.conn.now) (state S.Store transaction.new.conn.now) (λ _. ⊥) }
    ensures inside { Inside (state S.Store transaction.old.conn.now) (state S.Store transaction.new.conn.now) result
        (λ rows. Shown text.now (bound params.now) (state S.Store transaction.old.conn.now) (state S.Store transaction.new.conn.now) rows.items) }
{
    match transaction.query_all(text, params) {
        Ok(rows) => Ok(rows),
        Err(error) => Err(fail_of(error)),
    }
}

// ---- the tables

pub fn make_records<S: Alter>(transaction: &mut Transaction<'_, S>) -> Result<(), KeepFail>
    ensures same_reference { transaction.new.conn.ghost_name ≡ transaction.old.conn.ghost_name }
    ensures survives { Survives (state S.Store transaction.old.conn.now) (state S.Store transaction.new.conn.now) (λ _. ⊥) }
    ensures inside { Inside (state S.Store transaction.old.conn.now) (state S.Store transaction.new.conn.now) result
        (λ _. IsTrue (state S.Store transaction.old.conn.now).is_open × Moves (λ stage. stage) with_one (state S.Store transaction.old.conn.now).now (state S.Store transaction.new.conn.now).now) }
{
    send(
        transaction,
        "CREATE TABLE IF NOT EXISTS records(number INTEGER PRIMARY KEY, text BLOB NOT NULL) STRICT",
        &[],
    )
}

pub fn make_queries<S: Alter>(transaction: &mut Transaction<'_, S>) -> Result<(), KeepFail>
    ensures same_reference { transaction.new.conn.ghost_name ≡ transaction.old.conn.ghost_name }
    ensures survives { Survives (state S.Store transaction.old.conn.now) (state S.Store transaction.new.conn.now) (λ _. ⊥) }
    ensures inside { Inside (state S.Store transaction.old.conn.now) (state S.Store transaction.new.conn.now) result
        (λ _. IsTrue (state S.Store transaction.old.conn.now).is_open × Moves with_one with_two (state S.Store transaction.old.conn.now).now (state S.Store transaction.new.conn.now).now) }
{
    send(
        transaction,
        "CREATE TABLE IF NOT EXISTS queries(number INTEGER PRIMARY KEY, name TEXT NOT NULL UNIQUE, text BLOB NOT NULL) STRICT",
        &[],
    )
}

pub fn make_cursors<S: Alter>(transaction: &mut Transaction<'_, S>) -> Result<(), KeepFail>
    ensures same_reference { transaction.new.conn.ghost_name ≡ transaction.old.conn.ghost_name }
    ensures survives { Survives (state S.Store transaction.old.conn.now) (state S.Store transaction.new.conn.now) (λ _. ⊥) }
    ensures inside { Inside (state S.Store transaction.old.conn.now) (state S.Store transaction.new.conn.now) result
        (λ _. IsTrue (state S.Store transaction.old.conn.now).is_open × Moves with_two with_three (state S.Store transaction.old.conn.now).now (state S.Store transaction.new.conn.now).now) }
{
    send(
        transaction,
        "CREATE TABLE IF NOT EXISTS cursors(number INTEGER PRIMARY KEY, name TEXT NOT NULL, place BLOB NOT NULL) STRICT",
        &[],
    )
}

pub fn make_nexts<S: Alter>(transaction: &mut Transaction<'_, S>) -> Result<(), KeepFail>
    ensures same_reference { transaction.new.conn.ghost_name ≡ transaction.old.conn.ghost_name }
    ensures survives { Survives (state S.Store transaction.old.conn.now) (state S.Store transaction.new.conn.now) (λ _. ⊥) }
    ensures inside { Inside (state S.Store transaction.old.conn.now) (state S.Store transaction.new.conn.now) result
        (λ _. IsTrue (state S.Store transaction.old.conn.now).is_open × Moves with_three with_all (state S.Store transaction.old.conn.now).now (state S.Store transaction.new.conn.now).now) }
{
    send(
        transaction,
        "CREATE TABLE IF NOT EXISTS nexts(which INTEGER PRIMARY KEY, value INTEGER NOT NULL) STRICT",
        &[],
    )
}

// ---- rows that are dropped

pub fn drop_record<S: Alter>(
    transaction: &mut Transaction<'_, S>,
    number: u32,
) -> Result<(), KeepFail>
    ensures same_reference { transaction.new.conn.ghost_name ≡ transaction.old.conn.ghost_name }
    ensures survives { Survives (state S.Store transaction.old.conn.now) (state S.Store transaction.new.conn.now) (λ _. ⊥) }
    ensures inside { Inside (state S.Store transaction.old.conn.now) (state S.Store transaction.new.conn.now) result
        (λ _. Changes (state S.Store transaction.old.conn.now) (state S.Store transaction.new.conn.now) (λ t. record t { records = without record_number number t.records })) }
{
    send(
        transaction,
        "DELETE FROM records WHERE number = ?1",
        params![number],
    )
}

pub fn drop_query<S: Alter>(
    transaction: &mut Transaction<'_, S>,
    name: &str,
) -> Result<(), KeepFail>
    ensures same_reference { transaction.new.conn.ghost_name ≡ transaction.old.conn.ghost_name }
    ensures survives { Survives (state S.Store transaction.old.conn.now) (state S.Store transaction.new.conn.now) (λ _. ⊥) }
    ensures inside { Inside (state S.Store transaction.old.conn.now) (state S.Store transaction.new.conn.now) result
        (λ _. Changes (state S.Store transaction.old.conn.now) (state S.Store transaction.new.conn.now) (λ t. record t { queries = without_name name.now t.queries })) }
{
    send(
        transaction,
        "DELETE FROM queries WHERE name = ?1",
        params![name],
    )
}

pub fn drop_cursor<S: Alter>(
    transaction: &mut Transaction<'_, S>,
    number: u32,
) -> Result<(), KeepFail>
    ensures same_reference { transaction.new.conn.ghost_name ≡ transaction.old.conn.ghost_name }
    ensures survives { Survives (state S.Store transaction.old.conn.now) (state S.Store transaction.new.conn.now) (λ _. ⊥) }
    ensures inside { Inside (state S.Store transaction.old.conn.now) (state S.Store transaction.new.conn.now) result
        (λ _. Changes (state S.Store transaction.old.conn.now) (state S.Store transaction.new.conn.now) (λ t. record t { cursors = without cursor_number number t.cursors })) }
{
    send(
        transaction,
        "DELETE FROM cursors WHERE number = ?1",
        params![number],
    )
}

// ---- rows that are put

pub fn put_record<S: Alter>(
    transaction: &mut Transaction<'_, S>,
    number: u32,
    text: &[u8],
) -> Result<(), KeepFail>
    ensures same_reference { transaction.new.conn.ghost_name ≡ transaction.old.conn.ghost_name }
    ensures survives { Survives (state S.Store transaction.old.conn.now) (state S.Store transaction.new.conn.now) (λ _. ⊥) }
    ensures inside { Inside (state S.Store transaction.old.conn.now) (state S.Store transaction.new.conn.now) result
        (λ _. Changes (state S.Store transaction.old.conn.now) (state S.Store transaction.new.conn.now) (λ t. record t { records = put record_number (record { number = number; text = text.now }) t.records })) }
{
    send(
        transaction,
        "INSERT INTO records(number, text) VALUES (?1, ?2) ON CONFLICT(number) DO UPDATE SET text = excluded.text",
        params![number, text],
    )
}

pub fn put_query<S: Alter>(
    transaction: &mut Transaction<'_, S>,
    number: u32,
    name: &str,
    text: &[u8],
) -> Result<(), KeepFail>
    ensures same_reference { transaction.new.conn.ghost_name ≡ transaction.old.conn.ghost_name }
    ensures survives { Survives (state S.Store transaction.old.conn.now) (state S.Store transaction.new.conn.now) (λ _. ⊥) }
    ensures inside { Inside (state S.Store transaction.old.conn.now) (state S.Store transaction.new.conn.now) result
        (λ _. Changes (state S.Store transaction.old.conn.now) (state S.Store transaction.new.conn.now) (λ t. record t { queries = put query_number (record { number = number; name = name.now; text = text.now }) t.queries })) }
{
    send(
        transaction,
        "INSERT INTO queries(number, name, text) VALUES (?1, ?2, ?3) ON CONFLICT(number) DO UPDATE SET name = excluded.name, text = excluded.text",
        params![number, name, text],
    )
}

/// Puts a cursor whose place reads from the bytes.
pub fn put_cursor<S: Alter>(
    transaction: &mut Transaction<'_, S>,
    number: u32,
    name: &str,
    place: &[u8],
) -> Result<(), KeepFail>
    ensures same_reference { transaction.new.conn.ghost_name ≡ transaction.old.conn.ghost_name }
    ensures survives { Survives (state S.Store transaction.old.conn.now) (state S.Store transaction.new.conn.now) (λ _. ⊥) }
    ensures inside { Inside (state S.Store transaction.old.conn.now) (state S.Store transaction.new.conn.now) result
        (λ _. (list : List ℕ) → spelt_place place.now ≡ Some list → Changes (state S.Store transaction.old.conn.now) (state S.Store transaction.new.conn.now) (λ t. record t { cursors = put cursor_number (record { number = number; name = name.now; place = list }) t.cursors })) }
{
    send(
        transaction,
        "INSERT INTO cursors(number, name, place) VALUES (?1, ?2, ?3) ON CONFLICT(number) DO UPDATE SET name = excluded.name, place = excluded.place",
        params![number, name, place],
    )
}

// ---- the next numbers

/// Raises the next number of records to the value, where it is below.
pub fn raise_next_record<S: Alter>(
    transaction: &mut Transaction<'_, S>,
    value: u32,
) -> Result<(), KeepFail>
    requires { 1 ≤ value }
    ensures same_reference { transaction.new.conn.ghost_name ≡ transaction.old.conn.ghost_name }
    ensures survives { Survives (state S.Store transaction.old.conn.now) (state S.Store transaction.new.conn.now) (λ _. ⊥) }
    ensures inside { Inside (state S.Store transaction.old.conn.now) (state S.Store transaction.new.conn.now) result
        (λ _. Changes (state S.Store transaction.old.conn.now) (state S.Store transaction.new.conn.now) (λ t. record t { next_record = max t.next_record value })) }
{
    send(
        transaction,
        "INSERT INTO nexts(which, value) VALUES (?1, ?2) ON CONFLICT(which) DO UPDATE SET value = excluded.value WHERE nexts.value < excluded.value",
        params![1u32, value],
    )
}

/// The same of cursors.
pub fn raise_next_cursor<S: Alter>(
    transaction: &mut Transaction<'_, S>,
    value: u32,
) -> Result<(), KeepFail>
    requires { 1 ≤ value }
    ensures same_reference { transaction.new.conn.ghost_name ≡ transaction.old.conn.ghost_name }
    ensures survives { Survives (state S.Store transaction.old.conn.now) (state S.Store transaction.new.conn.now) (λ _. ⊥) }
    ensures inside { Inside (state S.Store transaction.old.conn.now) (state S.Store transaction.new.conn.now) result
        (λ _. Changes (state S.Store transaction.old.conn.now) (state S.Store transaction.new.conn.now) (λ t. record t { next_cursor = max t.next_cursor value })) }
{
    send(
        transaction,
        "INSERT INTO nexts(which, value) VALUES (?1, ?2) ON CONFLICT(which) DO UPDATE SET value = excluded.value WHERE nexts.value < excluded.value",
        params![2u32, value],
    )
}

// ---- selections

pub fn select_records<S: Alter>(
    alloc: Global,
    transaction: &mut Transaction<'_, S>,
) -> Result<RecordRows, KeepFail>
    ensures same_reference { transaction.new.conn.ghost_name ≡ transaction.old.conn.ghost_name }
    ensures survives { Survives (state S.Store transaction.old.conn.now) (state S.Store transaction.new.conn.now) (λ _. ⊥) }
    ensures inside { Inside (state S.Store transaction.old.conn.now) (state S.Store transaction.new.conn.now) result
        (λ it. HasTables all_tables (state S.Store transaction.old.conn.now).now → (IsShaped Table ((state S.Store transaction.old.conn.now).now.trees 0) → AreRead record_in ((state S.Store transaction.old.conn.now).now.trees 0) it) × ((state S.Store transaction.new.conn.now).now ≡ (state S.Store transaction.old.conn.now).now)) }
{
    let rows = show(
        transaction,
        "SELECT number, text FROM records ORDER BY number",
        &[],
    )?;
    records_of(alloc, rows.as_slice())
}

pub fn select_queries<S: Alter>(
    alloc: Global,
    transaction: &mut Transaction<'_, S>,
) -> Result<QueryRows, KeepFail>
    ensures same_reference { transaction.new.conn.ghost_name ≡ transaction.old.conn.ghost_name }
    ensures survives { Survives (state S.Store transaction.old.conn.now) (state S.Store transaction.new.conn.now) (λ _. ⊥) }
    ensures inside { Inside (state S.Store transaction.old.conn.now) (state S.Store transaction.new.conn.now) result
        (λ it. HasTables all_tables (state S.Store transaction.old.conn.now).now → (IsShaped Table ((state S.Store transaction.old.conn.now).now.trees 1) → AreRead query_in ((state S.Store transaction.old.conn.now).now.trees 1) it) × ((state S.Store transaction.new.conn.now).now ≡ (state S.Store transaction.old.conn.now).now)) }
{
    let rows = show(
        transaction,
        "SELECT number, name, text FROM queries ORDER BY number",
        &[],
    )?;
    queries_of(alloc, rows.as_slice())
}

pub fn select_cursors<S: Alter>(
    alloc: Global,
    transaction: &mut Transaction<'_, S>,
) -> Result<CursorRows, KeepFail>
    ensures same_reference { transaction.new.conn.ghost_name ≡ transaction.old.conn.ghost_name }
    ensures survives { Survives (state S.Store transaction.old.conn.now) (state S.Store transaction.new.conn.now) (λ _. ⊥) }
    ensures inside { Inside (state S.Store transaction.old.conn.now) (state S.Store transaction.new.conn.now) result
        (λ it. HasTables all_tables (state S.Store transaction.old.conn.now).now → (IsShaped Table ((state S.Store transaction.old.conn.now).now.trees 3) → AreRead cursor_in ((state S.Store transaction.old.conn.now).now.trees 3) it) × ((state S.Store transaction.new.conn.now).now ≡ (state S.Store transaction.old.conn.now).now)) }
{
    let rows = show(
        transaction,
        "SELECT number, name, place FROM cursors ORDER BY number",
        &[],
    )?;
    cursors_of(alloc, rows.as_slice())
}

pub fn select_next_record<S: Alter>(transaction: &mut Transaction<'_, S>) -> Result<u32, KeepFail>
    ensures same_reference { transaction.new.conn.ghost_name ≡ transaction.old.conn.ghost_name }
    ensures survives { Survives (state S.Store transaction.old.conn.now) (state S.Store transaction.new.conn.now) (λ _. ⊥) }
    ensures inside { Inside (state S.Store transaction.old.conn.now) (state S.Store transaction.new.conn.now) result
        (λ it. HasTables all_tables (state S.Store transaction.old.conn.now).now → (IsShaped Table ((state S.Store transaction.old.conn.now).now.trees 4) → next_in (pos 1) ((state S.Store transaction.old.conn.now).now.trees 4) ≡ Some it) × ((state S.Store transaction.new.conn.now).now ≡ (state S.Store transaction.old.conn.now).now)) }
{
    let rows = show(
        transaction,
        "SELECT value FROM nexts WHERE which = ?1",
        params![1u32],
    )?;
    next_of(rows.as_slice())
}

pub fn select_next_cursor<S: Alter>(transaction: &mut Transaction<'_, S>) -> Result<u32, KeepFail>
    ensures same_reference { transaction.new.conn.ghost_name ≡ transaction.old.conn.ghost_name }
    ensures survives { Survives (state S.Store transaction.old.conn.now) (state S.Store transaction.new.conn.now) (λ _. ⊥) }
    ensures inside { Inside (state S.Store transaction.old.conn.now) (state S.Store transaction.new.conn.now) result
        (λ it. HasTables all_tables (state S.Store transaction.old.conn.now).now → (IsShaped Table ((state S.Store transaction.old.conn.now).now.trees 4) → next_in (pos 2) ((state S.Store transaction.old.conn.now).now.trees 4) ≡ Some it) × ((state S.Store transaction.new.conn.now).now ≡ (state S.Store transaction.old.conn.now).now)) }
{
    let rows = show(
        transaction,
        "SELECT value FROM nexts WHERE which = ?1",
        params![2u32],
    )?;
    next_of(rows.as_slice())
}
