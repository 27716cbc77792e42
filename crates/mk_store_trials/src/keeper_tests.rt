// A file that is written and read again, and rows and schemas that are none of ours.
ghost use Rattle.std.specs.Prelude.{IfOk};
ghost use Rattle.std.specs.Str.{IsAscii};
ghost use Rattle.mk_outside.specs.Tables.{CanKeep};

use mk_outside::{Bytes, Change, KeepFail, Keeper, Place, SureKeeper, Tables};
use mk_sqlite::SqlKeeper;
use sqlite::{Connection, MemStore, Unknown};
use std::alloc::{AllocError, Global};
use std::fs;
use std::test::Fail;

// Tables and rows that stand in a database before it is loaded.
static STRANGE: [(&str, &str); 5] = [
    (
        "a place of five bytes",
        "CREATE TABLE cursors(number INTEGER PRIMARY KEY, name TEXT NOT NULL, place BLOB NOT NULL) STRICT;
        INSERT INTO cursors VALUES (1, 'q', x'0000000100')",
    ),
    (
        "a number below 0",
        "CREATE TABLE records(number INTEGER PRIMARY KEY, text BLOB NOT NULL) STRICT;
        INSERT INTO records VALUES (-1, x'61')",
    ),
    (
        "a number of 33 bits",
        "CREATE TABLE records(number INTEGER PRIMARY KEY, text BLOB NOT NULL) STRICT;
        INSERT INTO records VALUES (4294967296, x'61')",
    ),
    (
        "text in a blob's place",
        "CREATE TABLE records(number INTEGER PRIMARY KEY, text BLOB NOT NULL);
        INSERT INTO records VALUES (1, 'a')",
    ),
    (
        "a next number below 0",
        "CREATE TABLE nexts(which INTEGER PRIMARY KEY, value INTEGER NOT NULL) STRICT;
        INSERT INTO nexts VALUES (2, -1)",
    ),
];

fn text(alloc: Global, bytes: &[u8]) -> Result<Bytes, AllocError> {
    Ok(Bytes::of(Vec::from_slice(alloc, bytes)?))
}

// The name of all rows.
fn name(alloc: Global) -> Result<Bytes, AllocError>
    ensures { IfOk result IsAscii }
{
    Ok(Bytes::of(Vec::from_slice(alloc, b"q")?))
}

fn record(alloc: Global, bytes: &[u8]) -> Result<Change, AllocError>
    ensures { IfOk result CanKeep }
{
    let text = text(alloc, bytes)?;
    Ok(Change::PutRecord { number: 3, text })
}

fn query(alloc: Global, number: u32) -> Result<Change, AllocError>
    ensures { IfOk result CanKeep }
{
    let name = name(alloc)?;
    let text = text(alloc, b"t")?;
    Ok(Change::PutQuery { number, name, text })
}

fn cursor(alloc: Global) -> Result<Change, AllocError>
    ensures { IfOk result CanKeep }
{
    let name = name(alloc)?;
    let place = Place::of(Vec::from_slice(alloc, &[1, 258, 4_294_967_295])?);
    Ok(Change::PutCursor {
        number: 7,
        name,
        place,
    })
}

fn digit(number: u32) -> u8 {
    b'0' + (number % 10) as u8
}

fn show_cursors(tables: &Tables, shown: &mut Vec<u8>) -> Result<(), AllocError> {
    for row in tables.cursors.as_slice() {
        shown.push(digit(row.number))?;
        shown.extend_from_slice(row.name.as_slice())?;
        for number in row.place.as_slice() {
            shown.push(digit(*number))?;
        }
    }
    Ok(())
}

fn shown(alloc: Global, tables: &Tables) -> Result<Vec<u8>, AllocError> {
    let mut shown = Vec::new(alloc);
    for row in tables.records.as_slice() {
        shown.push(digit(row.number))?;
        shown.extend_from_slice(row.text.as_slice())?;
    }
    for row in tables.queries.as_slice() {
        shown.push(digit(row.number))?;
        shown.extend_from_slice(row.name.as_slice())?;
        shown.extend_from_slice(row.text.as_slice())?;
    }
    show_cursors(tables, &mut shown)?;
    shown.push(digit(tables.next_record))?;
    shown.push(digit(tables.next_cursor))?;
    Ok(shown)
}

// Whether a batch of a record, a query and a cursor was made.
pub fn put_first<K: Keeper>(keeper: &mut K, alloc: Global) -> Result<bool, AllocError> {
    let record = record(alloc, b"ab")?;
    let query = query(alloc, 2)?;
    let cursor = cursor(alloc)?;
    Ok(keeper.commit(alloc, &[record, query, cursor]).is_ok())
}

// Whether a batch that replaces the record was made.
pub fn put_second<K: Keeper>(keeper: &mut K, alloc: Global) -> Result<bool, AllocError> {
    let record = record(alloc, b"c")?;
    let dropped = Change::DropRecord { number: 8 };
    Ok(keeper.commit(alloc, &[record, dropped]).is_ok())
}

// Whether both batches were made.
fn put_all<K: Keeper>(keeper: &mut K, alloc: Global) -> Result<bool, AllocError> {
    if !put_first(keeper, alloc)? {
        return Ok(false);
    }
    put_second(keeper, alloc)
}

// Whether a batch was made that drops the query and the cursor.
fn drop_both<K: Keeper>(keeper: &mut K, alloc: Global) -> Result<bool, AllocError> {
    let cursor = Change::DropCursor { number: 7 };
    let query = Change::DropQuery { name: name(alloc)? };
    Ok(keeper.commit(alloc, &[cursor, query]).is_ok())
}

// What is loaded. Nothing where that fails.
pub fn loaded<K: Keeper>(keeper: &mut K, alloc: Global) -> Result<Vec<u8>, AllocError> {
    match keeper.load(alloc) {
        Ok(tables) => shown(alloc, &tables),
        Err(_) => Ok(Vec::new(alloc)),
    }
}

// What is loaded, where the query and the cursor can be dropped afterwards.
fn load_and_drop<K: Keeper>(keeper: &mut K, alloc: Global) -> Result<Vec<u8>, AllocError> {
    let kept = loaded(keeper, alloc)?;
    Ok(if drop_both(keeper, alloc)? {
        kept
    } else {
        Vec::new(alloc)
    })
}

fn kept_by<K: Keeper>(keeper: &mut K, alloc: Global) -> Result<Vec<u8>, AllocError> {
    put_all(keeper, alloc)?;
    let mut kept = load_and_drop(keeper, alloc)?;
    kept.extend_from_slice(&loaded(keeper, alloc)?)?;
    Ok(kept)
}

fn kept_in_memory(alloc: Global) -> Result<Vec<u8>, AllocError> {
    let mut keeper = SureKeeper::new(Tables::new(alloc));
    kept_by(&mut keeper, alloc)
}

// What is done with a keeper over a file: both batches are made; what is loaded is put behind the text,
// and two rows are dropped; or it is put there alone; or the load fails.
#[derive(Clone, Copy)]
enum Step {
    Put,
    LoadAndDrop,
    Load,
    FailToLoad,
}

fn is_done<K: Keeper>(
    keeper: &mut K,
    alloc: Global,
    step: Step,
    kept: &mut Vec<u8>,
) -> Result<bool, AllocError> {
    match step {
        Step::Put => put_all(keeper, alloc),
        Step::LoadAndDrop => {
            kept.extend_from_slice(&load_and_drop(keeper, alloc)?)?;
            Ok(true)
        }
        Step::Load => {
            kept.extend_from_slice(&loaded(keeper, alloc)?)?;
            Ok(true)
        }
        Step::FailToLoad => Ok(fails_to_load(keeper, alloc)),
    }
}

fn fails_to_load<K: Keeper>(keeper: &mut K, alloc: Global) -> bool {
    matches!(keeper.load(alloc), Err(KeepFail::Failed))
}

// A keeper of its own for each step. It is made in one place and has one way out there, since the
// prover goes through all that is let go at each of them.
fn is_done_at(
    rt: &HostRuntime,
    path: &str,
    step: Step,
    kept: &mut Vec<u8>,
) -> Result<bool, AllocError> {
    let mut keeper = SqlKeeper::at(rt, path, Unknown);
    is_done(&mut keeper, rt.alloc(), step, kept)
}

fn kept_in_file(rt: &HostRuntime) -> Result<Vec<u8>, AllocError> {
    let mut kept = Vec::new(rt.alloc());
    if is_done_at(rt, "kept.db", Step::Put, &mut kept)?
        && is_done_at(rt, "kept.db", Step::LoadAndDrop, &mut kept)?
        && is_done_at(rt, "kept.db", Step::Load, &mut kept)?
    {
        return Ok(kept);
    }
    Ok(Vec::new(rt.alloc()))
}

#[test]
fn a_file_keeps_what_memory_keeps(rt: HostRuntime) -> Result<(), Fail> {
    let kept = kept_in_file(&rt)?;
    fs::remove_file(&rt, "kept.db")?;
    fs::remove_file(&rt, "kept.db-wal")?;
    // the record, the query, the cursor and the next numbers; then without the two that are dropped
    assert!(rt; kept.as_slice() == b"3c2qt7q185483c48".as_slice());
    assert!(rt; kept == kept_in_memory(rt.alloc())?);
    Ok(())
}

// Whether a batch fails of which the last change alone is refused, since another query has its
// name.
fn is_refused<K: Keeper>(keeper: &mut K, alloc: Global) -> Result<bool, AllocError> {
    let record = record(alloc, b"ab")?;
    let query = query(alloc, 4)?;
    Ok(matches!(
        keeper.commit(alloc, &[record, query]),
        Err(KeepFail::Failed)
    ))
}

// Whether a batch is refused whole, and leaves the one before.
fn is_refused_whole<K: Keeper>(keeper: &mut K, alloc: Global) -> Result<bool, AllocError> {
    let query = query(alloc, 2)?;
    let is_made = keeper.commit(alloc, &[query]).is_ok();
    let is_refused = is_refused(keeper, alloc)?;
    Ok(is_made && is_refused && loaded(keeper, alloc)?.as_slice() == b"2qt11".as_slice())
}

fn is_refused_in_memory(alloc: Global) -> Result<bool, AllocError> {
    let mut keeper = SqlKeeper::over(Connection::open_in_memory(alloc)?);
    is_refused_whole(&mut keeper, alloc)
}

#[test]
fn a_refused_batch_leaves_nothing(rt: HostRuntime) -> Result<(), Fail> {
    assert!(rt; is_refused_in_memory(rt.alloc())?);
    Ok(())
}

// A keeper over a database that these statements made.
fn over(alloc: Global, before: &str) -> Result<Option<SqlKeeper<MemStore>>, AllocError> {
    let mut connection = Connection::open_in_memory(alloc)?;
    if connection.execute_batch(before).is_err() || !connection.is_autocommit() {
        return Ok(None);
    }
    Ok(Some(SqlKeeper::over(connection)))
}

fn fails_over(alloc: Global, before: &str) -> Result<bool, AllocError> {
    match over(alloc, before)? {
        Some(mut keeper) => Ok(fails_to_load(&mut keeper, alloc)),
        None => Ok(false),
    }
}

// Whether a path that names no file fails to load.
fn is_shut(rt: &HostRuntime) -> Result<bool, AllocError> {
    is_done_at(rt, ":memory:", Step::FailToLoad, &mut Vec::new(rt.alloc()))
}

#[test]
fn strange_rows_fail(rt: HostRuntime) -> Result<(), Fail> {
    for (name, before) in STRANGE.iter() {
        assert!(rt; fails_over(rt.alloc(), before)?, "{name}");
    }
    assert!(rt; is_shut(&rt)?);
    Ok(())
}

// Schemas of which nothing is told, and what is loaded of them.
static SCHEMAS: [(&str, &str, &str); 3] = [
    (
        "another table",
        "CREATE TABLE notes(a TEXT);
        INSERT INTO notes VALUES ('b')",
        "11",
    ),
    (
        "another text of a table",
        "CREATE TABLE records(number INTEGER PRIMARY KEY, text BLOB NOT NULL);
        INSERT INTO records VALUES (1, x'61')",
        "1a11",
    ),
    (
        "the last table alone",
        "CREATE TABLE nexts(which INTEGER PRIMARY KEY, value INTEGER NOT NULL) STRICT;
        INSERT INTO nexts VALUES (1, 5)",
        "51",
    ),
];

fn is_loaded<K: Keeper>(keeper: &mut K, alloc: Global, wanted: &str) -> Result<bool, AllocError> {
    Ok(loaded(keeper, alloc)?.as_slice() == wanted.as_bytes())
}

fn loads(alloc: Global, before: &str, wanted: &str) -> Result<bool, AllocError> {
    match over(alloc, before)? {
        Some(mut keeper) => is_loaded(&mut keeper, alloc, wanted),
        None => Ok(false),
    }
}

#[test]
fn other_schemas_are_read(rt: HostRuntime) -> Result<(), Fail> {
    for (name, before, wanted) in SCHEMAS.iter() {
        assert!(rt; loads(rt.alloc(), before, wanted)?, "{name}");
    }
    Ok(())
}
