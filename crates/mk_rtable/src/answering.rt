// The command `table`.
ghost use Rattle.std.specs.Prelude.{◌≡◌, IfOk};
ghost use Rattle.mk_found.specs.Findings.{FoundFits, effect_of, stands_for};
ghost use Rattle.mk_library.specs.Records.{IsMoleculeAt};
ghost use Rattle.mk_rtable.specs.Answer.{BeginsOfTableAnswer, IsTableAnswer};
ghost use Rattle.mk_rtable.specs.Begins.{BeginsOfTable};
ghost use Rattle.mk_rtable.specs.Table.{IsRGroupTable};

use crate::TableRows;
use crate::table::r_table;
use crate::text::put_table;
use mk_found::{Found, SessionEdit, no_query};
use mk_kept::Saved;
use mk_library::Library;
use mk_model::{Query, Steps};
use mk_mol::one_filled_molecule;
use mk_outside::{Bytes, Memory};
use mk_sdfile::sdfile_is_exact;
use std::alloc::Global;
use std::sync::ledger::Ledger;

/// What `table` comes to.
pub fn table_found<L: Ledger>(
    alloc: Global,
    library: &Library,
    saved: &Saved,
    name: &str,
    steps: &mut Steps<L>,
) -> Result<Found, Memory>
    ensures comes { IfOk result (λ found. IsTableAnswer (stands_for library.now saved.now) name.now (effect_of found)) }
    ensures begins { IfOk result (λ found. BeginsOfTableAnswer (stands_for library.now saved.now) name.now (effect_of found) steps.old steps.new) }
    ensures fits { IfOk result (FoundFits library.now saved.now) }
{
    let Some(query) = saved.query_named(name.as_bytes()) else {
        return no_query(alloc, name);
    };
    let rows = rows_of(alloc, library, query, steps)?;
    let mut text = Vec::new(alloc);
    put_table(alloc, query, rows.as_slice(), &mut text)?;
    Ok(Found::Answered(SessionEdit::Unchanged, Bytes::of(text)))
}

// The rows of the query over the molecules of the records.
fn rows_of<L: Ledger>(
    alloc: Global,
    library: &Library,
    query: &Query,
    steps: &mut Steps<L>,
) -> Result<TableRows, Memory>
    ensures table { IfOk result (IsRGroupTable (IsMoleculeAt library.now.records) query.now) }
    ensures begins { IfOk result (λ _. BeginsOfTable (IsMoleculeAt library.now.records) query.now steps.old steps.new) }
{
    // For the proof alone: a record has one molecule.
    sdfile_is_exact();
    one_filled_molecule();
    r_table(alloc, library.shelf(), query, steps)
}
