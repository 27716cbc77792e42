// Batches on tables in any order, and what a keeper keeps after a failure.
ghost use Rattle.std.specs.Prelude.{IfOk};
ghost use Rattle.std.specs.Str.{IsAscii};
ghost use Rattle.mk_outside.specs.Tables.{CanKeep};

use mk_outside::{
    Bytes, CallNumbers, Change, Keeper, MemKeeper, Place, RecordRow, SureKeeper, Tables,
};
use std::alloc::{AllocError, Global};
use std::test::Fail;

// The records before, as numbers and letters; the batch, as what a change does, its number, and the
// letter that is its text and its name; and what is kept then, table by table, with the next
// numbers. `r`, `q` and `c` put a record, a query and a cursor, and `x`, `y` and `z` drop one.
static BATCHES: [(&str, &[u8; 6], &[u8; 6], &str); 9] = [
    (
        "between and behind",
        b"1a3b5c",
        b"r4dr6e",
        "1a3b4d5c6e|||71",
    ),
    ("in place of rows", b"1a3b5c", b"r3dr5e", "1a3d5e|||61"),
    ("the first of a number", b"2a2b1c", b"r2dr1e", "2d2b1e|||31"),
    (
        "the first greater one",
        b"5a1b9c",
        b"r7dr3e",
        "3e5a1b7d9c|||81",
    ),
    ("all of a number dropped", b"2a1b2c", b"x2-x8-", "1b|||11"),
    ("put and dropped", b"1a2b3c", b"r4dx4-", "1a2b3c|||51"),
    ("three tables", b"1a2b3c", b"q1dc2e", "1a2b3c|1d|2e|13"),
    ("a query by its name", b"1a2b3c", b"q1dy2d", "1a2b3c|||11"),
    (
        "a cursor by its number",
        b"1a2b3c",
        b"c1dz2d",
        "1a2b3c||1d|12",
    ),
];

fn bytes(alloc: Global, letter: u8) -> Result<Bytes, AllocError> {
    let mut bytes = Bytes::new(alloc);
    bytes.push(letter)?;
    Ok(bytes)
}

// A name of one letter.
fn name(alloc: Global, letter: u8) -> Result<Bytes, AllocError>
    ensures { IfOk result IsAscii }
{
    let letter = letter.min(b'z');
    Ok(Bytes::of(Vec::from_slice(alloc, &[letter])?))
}

fn number(digit: u8) -> u32 {
    u32::from(digit.saturating_sub(b'0'))
}

fn tables_of(alloc: Global, rows: &[u8; 6]) -> Result<Tables, AllocError> {
    let mut tables = Tables::new(alloc);
    for i in 0..3usize {
        tables.records.push(RecordRow {
            number: number(rows[2 * i]),
            text: bytes(alloc, rows[2 * i + 1])?,
        })?;
    }
    Ok(tables)
}

fn change_of(alloc: Global, deed: u8, digit: u8, letter: u8) -> Result<Change, AllocError>
    ensures { IfOk result CanKeep }
{
    let number = number(digit).min(9);
    match deed {
        b'r' => {
            let text = bytes(alloc, letter)?;
            Ok(Change::PutRecord { number, text })
        }
        b'q' => {
            let name = name(alloc, letter)?;
            let text = bytes(alloc, letter)?;
            Ok(Change::PutQuery { number, name, text })
        }
        b'y' => {
            let name = name(alloc, letter)?;
            Ok(Change::DropQuery { name })
        }
        b'c' => {
            let name = name(alloc, letter)?;
            let place = Place::new(alloc);
            Ok(Change::PutCursor {
                number,
                name,
                place,
            })
        }
        b'z' => Ok(Change::DropCursor { number }),
        _ => Ok(Change::DropRecord { number }),
    }
}

fn digit(number: u32) -> u8 {
    b'0' + (number % 10) as u8
}

fn shown(alloc: Global, tables: &Tables) -> Result<Vec<u8>, AllocError> {
    let mut shown = Vec::new(alloc);
    for row in tables.records.as_slice() {
        shown.push(digit(row.number))?;
        shown.extend_from_slice(row.text.as_slice())?;
    }
    shown.push(b'|')?;
    for row in tables.queries.as_slice() {
        shown.push(digit(row.number))?;
        shown.extend_from_slice(row.name.as_slice())?;
    }
    shown.push(b'|')?;
    for row in tables.cursors.as_slice() {
        shown.push(digit(row.number))?;
        shown.extend_from_slice(row.name.as_slice())?;
    }
    shown.push(b'|')?;
    shown.push(digit(tables.next_record))?;
    shown.push(digit(tables.next_cursor))?;
    Ok(shown)
}

// What is loaded after the batch. Nothing where a call fails.
fn kept<K: Keeper>(keeper: &mut K, alloc: Global, batch: &[u8; 6]) -> Result<Vec<u8>, AllocError> {
    let first = change_of(alloc, batch[0], batch[1], batch[2])?;
    let second = change_of(alloc, batch[3], batch[4], batch[5])?;
    if keeper.commit(alloc, &[first, second]).is_err() {
        return Ok(Vec::new(alloc));
    }
    match keeper.load(alloc) {
        Ok(tables) => shown(alloc, &tables),
        Err(_) => Ok(Vec::new(alloc)),
    }
}

// Whether both keepers keep this after the batch.
fn both_keep(
    alloc: Global,
    rows: &[u8; 6],
    batch: &[u8; 6],
    want: &[u8],
) -> Result<bool, AllocError> {
    let none = CallNumbers::new(alloc);
    let mut keeper = MemKeeper::new(tables_of(alloc, rows)?, none, CallNumbers::new(alloc));
    let mut sure = SureKeeper::new(tables_of(alloc, rows)?);
    let in_memory = kept(&mut keeper, alloc, batch)?;
    let surely = kept(&mut sure, alloc, batch)?;
    Ok(in_memory.as_slice() == want && surely.as_slice() == want)
}

#[test]
fn batches_are_made_on_tables_in_any_order(rt: HostRuntime) -> Result<(), Fail> {
    for (name, rows, batch, want) in BATCHES.iter() {
        assert!(rt;
            both_keep(rt.alloc(), rows, batch, want.as_bytes())?,
            "{name}"
        );
    }
    Ok(())
}

fn one_call(alloc: Global, number: u64) -> Result<CallNumbers, AllocError> {
    let mut failing = CallNumbers::new(alloc);
    failing.push(number)?;
    Ok(failing)
}

// Whether the calls failed, `x`, or not, `.`, and what is kept.
fn after_failures(alloc: Global) -> Result<Vec<u8>, AllocError> {
    let tables = tables_of(alloc, b"1a2b3c")?;
    let mut keeper = MemKeeper::new(tables, one_call(alloc, 1)?, one_call(alloc, 2)?);
    let load = keeper.load(alloc).is_err();
    let empty = keeper.commit(alloc, &[]).is_err();
    let commit = keeper
        .commit(alloc, &[Change::DropRecord { number: 2 }])
        .is_err();
    let mut all = shown(alloc, keeper.tables())?;
    for failed in [load, empty, commit] {
        all.push(if failed { b'x' } else { b'.' })?;
    }
    Ok(all)
}

#[test]
fn failures_and_empty_batches_leave_the_tables(rt: HostRuntime) -> Result<(), Fail> {
    assert!(rt; after_failures(rt.alloc())?.as_slice() == b"1a2b3c|||11x.x".as_slice());
    Ok(())
}
