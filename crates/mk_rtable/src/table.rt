// The table of a query over a shelf.
ghost use Rattle.std.specs.Prelude.{◌≤◌, ◌<◌, [], IfOk, length};
ghost use Rattle.mk_search.specs.Hits.{IsMadeFrom};
ghost use Rattle.mk_search.specs.Pages.{IsHeldIn};
ghost use Rattle.mk_rtable.specs.Begins.{BeginsOfTable};
ghost use Rattle.mk_rtable.specs.Table.{IsRGroupTable};
ghost use Rattle.mk_rtable.specs.Rows.{IsRowOfKey};

use crate::members::members_of_front;
use crate::{TableRow, TableRows};
use mk_index::Shelf;
use mk_model::{Memory, Query, Steps};
use mk_search::Hits;
use std::alloc::Global;
use std::sync::ledger::Ledger;

/// The table of the query: for each record with a key, by rising number, the members of the least
/// code among its keys. Behind that code no search is begun in the record.
pub fn r_table<L: Ledger>(
    alloc: Global,
    shelf: &Shelf,
    query: &Query,
    steps: &mut Steps<L>,
) -> Result<TableRows, Memory>
    ensures table { IfOk result (IsRGroupTable (IsHeldIn shelf.now.rows) query.now) }
    ensures begins { IfOk result (λ _. BeginsOfTable (IsHeldIn shelf.now.rows) query.now steps.old steps.new) }
    ensures steps { steps.old ≤ steps.new }
{
    let mut hits = Hits::from_place(alloc, shelf, query, &[])?;
    rows_left(alloc, query, &mut hits, steps)
}

// The rows of all records with keys, of which none is taken yet.
fn rows_left<L: Ledger>(
    alloc: Global,
    query: &Query,
    hits: &mut Hits<'_>,
    steps: &mut Steps<L>,
) -> Result<TableRows, Memory>
    requires { IsMadeFrom hits.old.rows query.now [] hits.old }
    ensures table { IfOk result (IsRGroupTable (IsHeldIn hits.old.rows) query.now) }
    ensures begins { IfOk result (λ _. BeginsOfTable (IsHeldIn hits.old.rows) query.now steps.old steps.new) }
    ensures steps { steps.old ≤ steps.new }
{
    let mut rows = Vec::new(alloc);
    while let Some(key) = hits.next(alloc, steps)? {
        let row = row_of_key(alloc, query, key.as_slice())?;
        rows.push(row)?;
        if !hits.pass_record() {
            return Ok(TableRows::of(rows));
        }
    }
    Ok(TableRows::of(rows))
}

// The row of the record of a key, by the key's code.
fn row_of_key(alloc: Global, query: &Query, key: &[u32]) -> Result<TableRow, Memory>
    requires { 1 ≤ length key.now }
    ensures row { IfOk result (IsRowOfKey query.now key.now) }
    ensures fits { IfOk result (λ row. row.number < 4294967296) }
{
    let members = members_of_front(alloc, query, &key[1..])?;
    Ok(TableRow {
        number: key[0],
        members,
    })
}
