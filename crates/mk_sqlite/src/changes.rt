// Loads and commits, each as one transaction.
ghost use Rattle.std.specs.Prelude.{◌≡◌, ◌≤◌, pos, false, [], All, Some, IsTrue, IsOk, IfOk, IfSome};
ghost use Rattle.sqlite_trees.specs.declared.store.Shape.TheVariants.{Table};
ghost use Rattle.sqlite_trees.specs.View.{IsShaped};
ghost use Rattle.sqlite.specs.State.{HasCleanDisk, Survives};
ghost use Rattle.sqlite.specs.Held.{state};
ghost use Rattle.mk_outside.specs.declared.tables.Change.TheVariants.{PutRecord, PutQuery, DropQuery, PutCursor};
ghost use Rattle.mk_outside.specs.Tables.{after_change, after_batch, CanKeep};
ghost use Rattle.mk_outside.specs.Told.{committed};
ghost use Rattle.mk_sqlite.specs.Layout.{all_tables};
ghost use Rattle.mk_sqlite.specs.Told.{record_in, query_in, cursor_in, next_in, AreRead, AreTablesOf, IsTold};
ghost use Rattle.mk_sqlite.specs.Steps.{HasTables, AreShaped, Inside, Changes, Moves, Leaves, Loads, Ends, with_two, with_all};
ghost use Rattle.mk_sqlite.specs.Keeps.{IsSoundState, told_in, StaysSound, OnCrash, LeavesNoMore};

use crate::fails::fail_of;
use crate::places::stored_place;
use crate::statements::*;
use mk_outside::{Change, CursorRows, KeepFail, QueryRows, RecordRows, Tables};
use sqlite::{Alter, Connection, Transaction};
use std::alloc::Global;

// ---- within a transaction

// Makes records and queries, where they are missing.
fn make_first<S: Alter>(transaction: &mut Transaction<'_, S>) -> Result<(), KeepFail>
    ensures same_reference { transaction.new.conn.ghost_name ≡ transaction.old.conn.ghost_name }
    ensures survives { Survives (state S.Store transaction.old.conn.now) (state S.Store transaction.new.conn.now) (λ _. ⊥) }
    ensures inside { Inside (state S.Store transaction.old.conn.now) (state S.Store transaction.new.conn.now) result
        (λ _. IsTrue (state S.Store transaction.old.conn.now).is_open × Moves (λ stage. stage) with_two (state S.Store transaction.old.conn.now).now (state S.Store transaction.new.conn.now).now) }
{
    make_records(transaction)?;
    make_queries(transaction)
}

// Makes cursors and next numbers, where they are missing.
fn make_others<S: Alter>(transaction: &mut Transaction<'_, S>) -> Result<(), KeepFail>
    ensures same_reference { transaction.new.conn.ghost_name ≡ transaction.old.conn.ghost_name }
    ensures survives { Survives (state S.Store transaction.old.conn.now) (state S.Store transaction.new.conn.now) (λ _. ⊥) }
    ensures inside { Inside (state S.Store transaction.old.conn.now) (state S.Store transaction.new.conn.now) result
        (λ _. IsTrue (state S.Store transaction.old.conn.now).is_open × Moves with_two with_all (state S.Store transaction.old.conn.now).now (state S.Store transaction.new.conn.now).now) }
{
    make_cursors(transaction)?;
    make_nexts(transaction)
}

// Makes the tables that are missing.
fn make_tables<S: Alter>(transaction: &mut Transaction<'_, S>) -> Result<(), KeepFail>
    ensures same_reference { transaction.new.conn.ghost_name ≡ transaction.old.conn.ghost_name }
    ensures survives { Survives (state S.Store transaction.old.conn.now) (state S.Store transaction.new.conn.now) (λ _. ⊥) }
    ensures inside { Inside (state S.Store transaction.old.conn.now) (state S.Store transaction.new.conn.now) result
        (λ _. IsTrue (state S.Store transaction.old.conn.now).is_open × Moves (λ stage. stage) with_all (state S.Store transaction.old.conn.now).now (state S.Store transaction.new.conn.now).now) }
{
    make_first(transaction)?;
    make_others(transaction)
}

// Reads the rows of records, queries and cursors.
fn select_rows<S: Alter>(
    alloc: Global,
    transaction: &mut Transaction<'_, S>,
) -> Result<(RecordRows, QueryRows, CursorRows), KeepFail>
    ensures same_reference { transaction.new.conn.ghost_name ≡ transaction.old.conn.ghost_name }
    ensures survives { Survives (state S.Store transaction.old.conn.now) (state S.Store transaction.new.conn.now) (λ _. ⊥) }
    ensures inside { Inside (state S.Store transaction.old.conn.now) (state S.Store transaction.new.conn.now) result
        (λ it. HasTables all_tables (state S.Store transaction.old.conn.now).now → (IsShaped Table ((state S.Store transaction.old.conn.now).now.trees 0) → AreRead record_in ((state S.Store transaction.old.conn.now).now.trees 0) it.0) × (IsShaped Table ((state S.Store transaction.old.conn.now).now.trees 1) → AreRead query_in ((state S.Store transaction.old.conn.now).now.trees 1) it.1) × (IsShaped Table ((state S.Store transaction.old.conn.now).now.trees 3) → AreRead cursor_in ((state S.Store transaction.old.conn.now).now.trees 3) it.2) × ((state S.Store transaction.new.conn.now).now ≡ (state S.Store transaction.old.conn.now).now)) }
{
    let records = select_records(alloc, transaction)?;
    let queries = select_queries(alloc, transaction)?;
    let cursors = select_cursors(alloc, transaction)?;
    Ok((records, queries, cursors))
}

// Reads the two next numbers.
fn select_nexts<S: Alter>(transaction: &mut Transaction<'_, S>) -> Result<(u32, u32), KeepFail>
    ensures same_reference { transaction.new.conn.ghost_name ≡ transaction.old.conn.ghost_name }
    ensures survives { Survives (state S.Store transaction.old.conn.now) (state S.Store transaction.new.conn.now) (λ _. ⊥) }
    ensures inside { Inside (state S.Store transaction.old.conn.now) (state S.Store transaction.new.conn.now) result
        (λ it. HasTables all_tables (state S.Store transaction.old.conn.now).now → (IsShaped Table ((state S.Store transaction.old.conn.now).now.trees 4) → next_in (pos 1) ((state S.Store transaction.old.conn.now).now.trees 4) ≡ Some it.0) × (IsShaped Table ((state S.Store transaction.old.conn.now).now.trees 4) → next_in (pos 2) ((state S.Store transaction.old.conn.now).now.trees 4) ≡ Some it.1) × ((state S.Store transaction.new.conn.now).now ≡ (state S.Store transaction.old.conn.now).now)) }
{
    let next_record = select_next_record(transaction)?;
    let next_cursor = select_next_cursor(transaction)?;
    Ok((next_record, next_cursor))
}

fn select_tables<S: Alter>(
    alloc: Global,
    transaction: &mut Transaction<'_, S>,
) -> Result<Tables, KeepFail>
    ensures same_reference { transaction.new.conn.ghost_name ≡ transaction.old.conn.ghost_name }
    ensures survives { Survives (state S.Store transaction.old.conn.now) (state S.Store transaction.new.conn.now) (λ _. ⊥) }
    ensures inside { Inside (state S.Store transaction.old.conn.now) (state S.Store transaction.new.conn.now) result
        (λ it. HasTables all_tables (state S.Store transaction.old.conn.now).now → (AreShaped all_tables (state S.Store transaction.old.conn.now).now.trees → IsTold all_tables (state S.Store transaction.old.conn.now).now.trees it) × ((state S.Store transaction.new.conn.now).now ≡ (state S.Store transaction.old.conn.now).now)) }
{
    let (records, queries, cursors) = select_rows(alloc, transaction)?;
    let (next_record, next_cursor) = select_nexts(transaction)?;
    Ok(Tables {
        records,
        queries,
        cursors,
        next_record,
        next_cursor,
    })
}

// Makes the tables that are missing, and reads all rows.
fn load_inside<S: Alter>(
    alloc: Global,
    transaction: &mut Transaction<'_, S>,
) -> Result<Tables, KeepFail>
    ensures same_reference { transaction.new.conn.ghost_name ≡ transaction.old.conn.ghost_name }
    ensures survives { Survives (state S.Store transaction.old.conn.now) (state S.Store transaction.new.conn.now) (λ _. ⊥) }
    ensures inside { Inside (state S.Store transaction.old.conn.now) (state S.Store transaction.new.conn.now) result
        (λ it. Leaves (state S.Store transaction.old.conn.now).now (state S.Store transaction.new.conn.now).now (λ t. t) × (IsTrue (state S.Store transaction.old.conn.now).is_open × Loads (state S.Store transaction.old.conn.now).now it)) }
{
    make_tables(transaction)?;
    select_tables(alloc, transaction)
}

// The name as a text, which ASCII always is.
fn name_of(name: &[u8]) -> Result<&str, KeepFail>
    ensures { IfOk result (λ it. it.now ≡ name.now) }
{
    match std::str::from_utf8(name) {
        Ok(name) => Ok(name),
        Err(_) => Err(KeepFail::Failed),
    }
}

// Puts a record, and raises the next number behind its own.
fn change_record<S: Alter>(
    transaction: &mut Transaction<'_, S>,
    number: u32,
    text: &[u8],
) -> Result<(), KeepFail>
    requires { number ≤ 999999999 }
    ensures same_reference { transaction.new.conn.ghost_name ≡ transaction.old.conn.ghost_name }
    ensures survives { Survives (state S.Store transaction.old.conn.now) (state S.Store transaction.new.conn.now) (λ _. ⊥) }
    ensures inside { Inside (state S.Store transaction.old.conn.now) (state S.Store transaction.new.conn.now) result
        (λ _. Changes (state S.Store transaction.old.conn.now) (state S.Store transaction.new.conn.now) (after_change (PutRecord number text.now))) }
{
    put_record(transaction, number, text)?;
    raise_next_record(transaction, number + 1)
}

// Puts a query.
fn change_query<S: Alter>(
    transaction: &mut Transaction<'_, S>,
    number: u32,
    name: &[u8],
    text: &[u8],
) -> Result<(), KeepFail>
    ensures same_reference { transaction.new.conn.ghost_name ≡ transaction.old.conn.ghost_name }
    ensures survives { Survives (state S.Store transaction.old.conn.now) (state S.Store transaction.new.conn.now) (λ _. ⊥) }
    ensures inside { Inside (state S.Store transaction.old.conn.now) (state S.Store transaction.new.conn.now) result
        (λ _. Changes (state S.Store transaction.old.conn.now) (state S.Store transaction.new.conn.now) (after_change (PutQuery number name.now text.now))) }
{
    let name = name_of(name)?;
    put_query(transaction, number, name, text)
}

// Drops the query of a name.
fn forget_query<S: Alter>(transaction: &mut Transaction<'_, S>, name: &[u8]) -> Result<(), KeepFail>
    ensures same_reference { transaction.new.conn.ghost_name ≡ transaction.old.conn.ghost_name }
    ensures survives { Survives (state S.Store transaction.old.conn.now) (state S.Store transaction.new.conn.now) (λ _. ⊥) }
    ensures inside { Inside (state S.Store transaction.old.conn.now) (state S.Store transaction.new.conn.now) result
        (λ _. Changes (state S.Store transaction.old.conn.now) (state S.Store transaction.new.conn.now) (after_change (DropQuery name.now))) }
{
    let name = name_of(name)?;
    drop_query(transaction, name)
}

// Puts a cursor, and raises the next number behind its own.
fn change_cursor<S: Alter>(
    alloc: Global,
    transaction: &mut Transaction<'_, S>,
    number: u32,
    name: &[u8],
    place: &[u32],
) -> Result<(), KeepFail>
    requires { number ≤ 999999999 }
    ensures same_reference { transaction.new.conn.ghost_name ≡ transaction.old.conn.ghost_name }
    ensures survives { Survives (state S.Store transaction.old.conn.now) (state S.Store transaction.new.conn.now) (λ _. ⊥) }
    ensures inside { Inside (state S.Store transaction.old.conn.now) (state S.Store transaction.new.conn.now) result
        (λ _. Changes (state S.Store transaction.old.conn.now) (state S.Store transaction.new.conn.now) (after_change (PutCursor number name.now place.now))) }
{
    let name = name_of(name)?;
    let place = stored_place(alloc, place)?;
    put_cursor(transaction, number, name, place.as_slice())?;
    raise_next_cursor(transaction, number + 1)
}

// Makes one change.
fn make_change<S: Alter>(
    alloc: Global,
    transaction: &mut Transaction<'_, S>,
    change: &Change,
) -> Result<(), KeepFail>
    requires { CanKeep change.now }
    ensures same_reference { transaction.new.conn.ghost_name ≡ transaction.old.conn.ghost_name }
    ensures survives { Survives (state S.Store transaction.old.conn.now) (state S.Store transaction.new.conn.now) (λ _. ⊥) }
    ensures inside { Inside (state S.Store transaction.old.conn.now) (state S.Store transaction.new.conn.now) result
        (λ _. Changes (state S.Store transaction.old.conn.now) (state S.Store transaction.new.conn.now) (after_change change.now)) }
{
    match change {
        Change::PutRecord { number, text } => {
            change_record(transaction, *number, text.as_slice())
        }
        Change::DropRecord { number } => drop_record(transaction, *number),
        Change::PutQuery { number, name, text } => {
            change_query(transaction, *number, name.as_slice(), text.as_slice())
        }
        Change::DropQuery { name } => forget_query(transaction, name.as_slice()),
        Change::PutCursor {
            number,
            name,
            place,
        } => change_cursor(
            alloc,
            transaction,
            *number,
            name.as_slice(),
            place.as_slice(),
        ),
        Change::DropCursor { number } => drop_cursor(transaction, *number),
    }
}

// Makes all changes in order, up to the first that fails.
fn make_all<S: Alter>(
    alloc: Global,
    transaction: &mut Transaction<'_, S>,
    batch: &[Change],
) -> Result<(), KeepFail>
    requires { All CanKeep batch.now }
    ensures same_reference { transaction.new.conn.ghost_name ≡ transaction.old.conn.ghost_name }
    ensures survives { Survives (state S.Store transaction.old.conn.now) (state S.Store transaction.new.conn.now) (λ _. ⊥) }
    ensures inside { Inside (state S.Store transaction.old.conn.now) (state S.Store transaction.new.conn.now) result
        (λ _. Changes (state S.Store transaction.old.conn.now) (state S.Store transaction.new.conn.now) (after_batch batch.now)) }
{
    for change in batch {
        make_change(alloc, transaction, change)?;
    }
    Ok(())
}

// Makes the tables that are missing, and all changes.
fn commit_inside<S: Alter>(
    alloc: Global,
    transaction: &mut Transaction<'_, S>,
    batch: &[Change],
) -> Result<(), KeepFail>
    requires { All CanKeep batch.now }
    ensures same_reference { transaction.new.conn.ghost_name ≡ transaction.old.conn.ghost_name }
    ensures survives { Survives (state S.Store transaction.old.conn.now) (state S.Store transaction.new.conn.now) (λ _. ⊥) }
    ensures inside { Inside (state S.Store transaction.old.conn.now) (state S.Store transaction.new.conn.now) result
        (λ _. Leaves (state S.Store transaction.old.conn.now).now (state S.Store transaction.new.conn.now).now (after_batch batch.now) × IsTrue (state S.Store transaction.old.conn.now).is_open) }
{
    make_tables(transaction)?;
    make_all(alloc, transaction, batch)
}

// ---- the end of a transaction

// Commits where what was done within went well, and else undoes it.
fn end<S: Alter, T: Drop>(
    transaction: Transaction<'_, S>,
    answer: Result<T, KeepFail>,
) -> Result<T, KeepFail>
    ensures ended { transaction.exit.0.now.in_transaction ≡ false }
    ensures ends { HasCleanDisk (state S.Store transaction.exit.0.now) → Ends (state S.Store transaction.entry.conn.now) (state S.Store transaction.exit.0.now) result }
    ensures same { IfOk result (λ it. answer ≡ Ok it) }
    ensures survives { Survives (state S.Store transaction.entry.conn.now) (state S.Store transaction.exit.0.now) (λ db. IsOk answer × (db ≡ (state S.Store transaction.entry.conn.now).now.trees)) }
{
    match answer {
        Ok(answer) => match transaction.commit() {
            Ok(()) => Ok(answer),
            Err(error) => Err(fail_of(error)),
        },
        Err(fail) => {
            transaction.rollback();
            Err(fail)
        }
    }
}

/// Makes the tables that are missing, and reads all rows.
pub fn load<S: Alter>(alloc: Global, connection: &mut Connection<S>) -> Result<Tables, KeepFail>
    ensures sound { IsSoundState (state S.Store connection.new) → IsSoundState (state S.Store connection.old) }
    ensures kept { IsSoundState (state S.Store connection.new) → IfSome (told_in (state S.Store connection.old)) (λ t. told_in (state S.Store connection.new) ≡ Some t) }
    ensures gives { IsSoundState (state S.Store connection.new) → IfSome (told_in (state S.Store connection.old)) (λ t. IfOk result (λ loaded. loaded ≡ t)) }
    ensures stays { StaysSound (state S.Store connection.old) (state S.Store connection.new) }
    ensures crash { OnCrash (state S.Store connection.old) (state S.Store connection.new) [] }
    ensures after_fault { LeavesNoMore (state S.Store connection.old) (state S.Store connection.new) }
    ensures formed { IsSoundState (state S.Store connection.new) → IfOk result (AreTablesOf (state S.Store connection.old).committed) }
{
    // No connection of a keeper is in a transaction here, but no clause of its type says so.
    if !connection.is_autocommit() {
        return Err(KeepFail::Failed);
    }
    // For the proof alone: what the library says of the schema says that the database is sound.
    let _schema = connection.schema();
    let mut transaction = connection.transaction();
    let answer = load_inside(alloc, &mut transaction);
    end(transaction, answer)
}

/// Makes all changes of the batch in order. After a failure none of them is made.
pub fn commit<S: Alter>(
    alloc: Global,
    connection: &mut Connection<S>,
    batch: &[Change],
) -> Result<(), KeepFail>
    requires { All CanKeep batch.now }
    ensures sound { IsSoundState (state S.Store connection.new) → IsSoundState (state S.Store connection.old) }
    ensures told { IsSoundState (state S.Store connection.new) → IfSome (told_in (state S.Store connection.old)) (λ t. told_in (state S.Store connection.new) ≡ Some (committed batch.now t result)) }
    ensures stays { StaysSound (state S.Store connection.old) (state S.Store connection.new) }
    ensures crash { OnCrash (state S.Store connection.old) (state S.Store connection.new) batch.now }
    ensures after_fault { LeavesNoMore (state S.Store connection.old) (state S.Store connection.new) }
{
    // No connection of a keeper is in a transaction here, but no clause of its type says so.
    if !connection.is_autocommit() {
        return Err(KeepFail::Failed);
    }
    // For the proof alone: what the library says of the schema says that the database is sound.
    let _schema = connection.schema();
    let mut transaction = connection.transaction();
    let answer = commit_inside(alloc, &mut transaction, batch);
    end(transaction, answer)
}
