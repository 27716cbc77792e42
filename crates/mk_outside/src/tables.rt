// What a keeper keeps, and how that changes.
ghost use Rattle.std.specs.Prelude.{◌≡◌};
ghost use Rattle.mk_outside.specs.Tables.{no_tables};

use mk_text::{Bytes, Listed, Place};
use std::alloc::Global;

/// A record: the text of a molecule.
#[derive(Debug, Drop)]
pub struct RecordRow {
    pub number: u32,
    pub text: Bytes,
}

/// A query under its name.
#[derive(Debug, Drop)]
pub struct QueryRow {
    pub number: u32,
    pub name: Bytes,
    pub text: Bytes,
}

/// A saved search with a query's name, and where it goes on.
#[derive(Debug, Drop)]
pub struct CursorRow {
    pub number: u32,
    pub name: Bytes,
    pub place: Place,
}

/// Records by rising number.
pub type RecordRows = Listed<RecordRow>;

/// Queries by rising number.
pub type QueryRows = Listed<QueryRow>;

/// Saved searches by rising number.
pub type CursorRows = Listed<CursorRow>;

/// What a keeper keeps: rows, and the numbers that come next.
#[derive(Debug, Drop)]
pub struct Tables {
    pub records: RecordRows,
    pub queries: QueryRows,
    pub cursors: CursorRows,
    pub next_record: u32,
    pub next_cursor: u32,
}

impl Tables {
    /// Tables without rows. They take no memory.
    pub fn new(alloc: Global) -> Tables
        ensures { result ≡ no_tables }
    {
        Tables {
            records: RecordRows::new(alloc),
            queries: QueryRows::new(alloc),
            cursors: CursorRows::new(alloc),
            next_record: 1,
            next_cursor: 1,
        }
    }
}

/// A change of tables. A Put replaces the row of its number or inserts a new one. A Drop takes the
/// row away where it is there.
#[derive(Debug, Drop)]
pub enum Change {
    PutRecord {
        number: u32,
        text: Bytes,
    },
    DropRecord {
        number: u32,
    },
    PutQuery {
        number: u32,
        name: Bytes,
        text: Bytes,
    },
    DropQuery {
        name: Bytes,
    },
    PutCursor {
        number: u32,
        name: Bytes,
        place: Place,
    },
    DropCursor {
        number: u32,
    },
}
