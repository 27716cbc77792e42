// Tables in memory, and batches made on them.
ghost use Rattle.std.specs.Prelude.{◌≡◌, ◌≤◌, [], ◌∷◌, List, All, IfOk, OnOk, OnErr};
ghost use Rattle.mk_outside.specs.Rows.{greatest, IsWithin};
ghost use Rattle.mk_outside.specs.Tables.{record_number, query_number, cursor_number, after_change, after_batch, CanKeep};
ghost use Rattle.mk_outside.specs.Store.{tables_of, record_puts, query_puts, cursor_puts, HasRoom, AreWithin};

use crate::rows::{Rows, copied, copies, greatest_of};
use crate::{Change, CursorRow, QueryRow, RecordRow, Tables};
use mk_text::Memory;
use std::alloc::Global;
use std::collections::VecDeque;
use std::marker::Model;
use std::mem;

fn copied_change(alloc: Global, change: &Change) -> Result<Change, Memory>
    ensures { IfOk result (λ copy. copy ≡ change.now) }
{
    match change {
        Change::PutRecord { number, text } => Ok(Change::PutRecord {
            number: *number,
            text: copied(alloc, text)?,
        }),
        Change::DropRecord { number } => Ok(Change::DropRecord { number: *number }),
        Change::PutQuery { number, name, text } => Ok(Change::PutQuery {
            number: *number,
            name: copied(alloc, name)?,
            text: copied(alloc, text)?,
        }),
        Change::DropQuery { name } => Ok(Change::DropQuery {
            name: copied(alloc, name)?,
        }),
        Change::PutCursor {
            number,
            name,
            place,
        } => Ok(Change::PutCursor {
            number: *number,
            name: copied(alloc, name)?,
            place: copied(alloc, place)?,
        }),
        Change::DropCursor { number } => Ok(Change::DropCursor { number: *number }),
    }
}

// The changes, in memory of their own.
fn staged(alloc: Global, batch: &[Change]) -> Result<VecDeque<Change>, Memory>
    ensures { IfOk result (λ queue. queue.items ≡ batch.now) }
{
    let mut queue = VecDeque::with_capacity(alloc, batch.len())?;
    for change in batch {
        queue.push_back(copied_change(alloc, change)?)?;
    }
    Ok(queue)
}

// How many rows of each kind a batch puts.
#[derive(Clone, Copy)]
struct Puts {
    records: usize,
    queries: usize,
    cursors: usize,
}

fn puts_of(batch: &[Change]) -> Puts
    ensures records { result.records ≡ record_puts batch.now }
    ensures queries { result.queries ≡ query_puts batch.now }
    ensures cursors { result.cursors ≡ cursor_puts batch.now }
{
    let mut puts = Puts {
        records: 0,
        queries: 0,
        cursors: 0,
    };
    for change in batch {
        match change {
            Change::PutRecord { .. } => puts.records += 1,
            Change::PutQuery { .. } => puts.queries += 1,
            Change::PutCursor { .. } => puts.cursors += 1,
            _ => {}
        }
    }
    puts
}

// Tables as the vectors of their rows, whose room is known.
#[derive(Drop)]
pub struct Parts {
    pub records: Rows<RecordRow>,
    pub queries: Rows<QueryRow>,
    pub cursors: Rows<CursorRow>,
    pub next_record: u32,
    pub next_cursor: u32,
}

impl Parts {
    // Makes room for all rows that the batch puts.
    fn reserve(&mut self, batch: &[Change]) -> Result<(), Memory>
        requires within { AreWithin self.old }
        ensures tables { tables_of self.new ≡ tables_of self.old }
        ensures within { AreWithin self.new }
        ensures room { OnOk result (HasRoom batch.now self.new) }
    {
        let puts = puts_of(batch);
        self.records.rows.reserve(puts.records)?;
        self.queries.rows.reserve(puts.queries)?;
        self.cursors.rows.reserve(puts.cursors)?;
        Ok(())
    }

    fn change(&mut self, change: Change)
        requires can { CanKeep change }
        requires within { AreWithin self.old }
        requires room { HasRoom (change ∷ []) self.old }
        ensures tables { tables_of self.new ≡ after_change change (tables_of self.old) }
        ensures within { AreWithin self.new }
        ensures room { (batch : List Change) → HasRoom (change ∷ batch) self.old → HasRoom batch self.new }
    {
        match change {
            Change::PutRecord { number, text } => {
                self.records.put(RecordRow { number, text });
                self.next_record = self.next_record.max(number + 1);
            }
            Change::DropRecord { number } => self.records.remove(number),
            Change::PutQuery { number, name, text } => {
                self.queries.put(QueryRow { number, name, text });
            }
            Change::DropQuery { name } => self.queries.remove_name(name.as_slice()),
            Change::PutCursor {
                number,
                name,
                place,
            } => {
                self.cursors.put(CursorRow {
                    number,
                    name,
                    place,
                });
                self.next_cursor = self.next_cursor.max(number + 1);
            }
            Change::DropCursor { number } => self.cursors.remove(number),
        }
    }

    fn change_all(&mut self, mut batch: VecDeque<Change>)
        requires can { All CanKeep batch.items }
        requires within { AreWithin self.old }
        requires room { HasRoom batch.items self.old }
        ensures tables { tables_of self.new ≡ after_batch batch.items (tables_of self.old) }
        ensures within { AreWithin self.new }
    {
        while let Some(change) = batch.pop_front() {
            self.change(change);
        }
    }
}

/// Tables, and for each kind of row a number that none of its rows is above.
#[derive(Debug, Drop)]
pub struct Store {
    tables: Tables,
    record_bound: u32,
    query_bound: u32,
    cursor_bound: u32,
    ghost records: { greatest record_number tables.records ≤ record_bound },
    ghost queries: { greatest query_number tables.queries ≤ query_bound },
    ghost cursors: { greatest cursor_number tables.cursors ≤ cursor_bound },
}

impl Model for Store {
    ghost use Rattle.mk_outside.specs.declared.tables.Tables.{Tables};

    ghost Value = { Tables };

    ghost view = { λ store. store.tables };
}

impl Store {
    pub fn new(tables: Tables) -> Store
        ensures { result ≡ tables }
    {
        let record_bound = greatest_of(tables.records.as_slice());
        let query_bound = greatest_of(tables.queries.as_slice());
        let cursor_bound = greatest_of(tables.cursors.as_slice());
        Store {
            tables,
            record_bound,
            query_bound,
            cursor_bound,
        }
    }

    pub fn tables(&self) -> &Tables
        ensures { result.now ≡ self.now }
    {
        &self.tables
    }

    /// The same tables, in memory of their own.
    pub fn copy(&self, alloc: Global) -> Result<Tables, Memory>
        ensures { IfOk result (λ copy. copy ≡ self.now) }
    {
        let records = copies(alloc, &self.tables.records)?;
        let queries = copies(alloc, &self.tables.queries)?;
        let cursors = copies(alloc, &self.tables.cursors)?;
        Ok(Tables {
            records,
            queries,
            cursors,
            next_record: self.tables.next_record,
            next_cursor: self.tables.next_cursor,
        })
    }

    // Takes the tables out, and leaves tables without rows.
    fn take(&mut self, alloc: Global) -> Parts
        ensures tables { tables_of result ≡ self.old }
        ensures within { AreWithin result }
    {
        let tables = mem::replace(&mut self.tables, Tables::new(alloc));
        Parts {
            records: Rows::of(tables.records, self.record_bound),
            queries: Rows::of(tables.queries, self.query_bound),
            cursors: Rows::of(tables.cursors, self.cursor_bound),
            next_record: tables.next_record,
            next_cursor: tables.next_cursor,
        }
    }

    fn of(parts: Parts) -> Store
        requires { AreWithin parts }
        ensures { result ≡ tables_of parts }
    {
        let Parts {
            records,
            queries,
            cursors,
            next_record,
            next_cursor,
        } = parts;
        Store {
            record_bound: records.bound,
            query_bound: queries.bound,
            cursor_bound: cursors.bound,
            tables: Tables {
                records: records.into_listed(),
                queries: queries.into_listed(),
                cursors: cursors.into_listed(),
                next_record,
                next_cursor,
            },
        }
    }

    /// Makes all changes in order. Where memory is wanting, the tables stay.
    pub fn change(&mut self, alloc: Global, batch: &[Change]) -> Result<(), Memory>
        requires { All CanKeep batch.now }
        ensures ok { OnOk result (self.new ≡ after_batch batch.now self.old) }
        ensures err { OnErr result (self.new ≡ self.old) }
    {
        let staged = staged(alloc, batch)?;
        let mut parts = self.take(alloc);
        let reserved = parts.reserve(batch);
        if reserved.is_ok() {
            parts.change_all(staged);
        }
        *self = Store::of(parts);
        reserved
    }
}
