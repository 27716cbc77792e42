// What a text is as a query file.
ghost use Rattle.std.specs.Prelude.{◌<◌, ◌+◌, ◌^◌, IfOk, length};
ghost use Rattle.mk_query.specs.InRange.{HaveFewProperties, IsQueryInRange};
ghost use Rattle.mk_rgfile.specs.QueryFacts.{member_count};
ghost use Rattle.mk_kept.specs.QueryText.{IsRawSaid, IsTextSaid, OneSaid};

use mk_model::Query;
use mk_outside::Memory;
use mk_query::{CompileFault, compile, fault_or_query, one_first_fault, one_query};
use mk_rgfile::{RawQuery, query_file_is_exact, read_rgfile};
use mk_tables::TableFault;
use std::alloc::Global;

/// What a text is as a query file.
#[derive(Drop)]
pub enum QueryText {
    /// A query file that passes every check, and its query.
    Compiled(Query),
    /// No query file: this is its first bad line.
    Bad { line: usize },
    /// The same, and that line says V3000 where a counts line is due.
    V3000 { line: usize },
    /// A query file that fails this check first, at this table and this item.
    Fails { check: u8, table: u32, item: u32 },
}

/// Reads a text as a query file, and compiles it.
pub fn query_of(alloc: Global, text: &[u8]) -> Result<QueryText, Memory>
    requires { length text.now < 2 ^ 32 }
    ensures { IfOk result (IsTextSaid text.now) }
{
    match read_rgfile(alloc, text) {
        Ok(raw) => query_of_raw(alloc, &raw),
        Err(TableFault::Bad { line }) => Ok(QueryText::Bad { line }),
        Err(TableFault::V3000 { line }) => Ok(QueryText::V3000 { line }),
        Err(TableFault::Memory) => Err(Memory),
    }
}

// The query of the tables of a query file, or the first check that they fail.
fn query_of_raw(alloc: Global, raw: &RawQuery) -> Result<QueryText, Memory>
    requires in_range { IsQueryInRange raw.now }
    requires few_members { member_count raw.now + 1 < 2 ^ 32 }
    requires few_properties { HaveFewProperties raw.now }
    ensures { IfOk result (IsRawSaid raw.now) }
{
    match compile(alloc, raw) {
        Ok(query) => Ok(QueryText::Compiled(query)),
        Err(CompileFault::Check { check, table, item }) => {
            Ok(QueryText::Fails { check, table, item })
        }
        Err(CompileFault::Memory) => Err(Memory),
    }
}

/// A law, carried by a function that does nothing: one thing is said of a text as a query file.
pub fn one_said()
    ensures { OneSaid }
{
    query_file_is_exact();
    one_query();
    one_first_fault();
    fault_or_query();
}
