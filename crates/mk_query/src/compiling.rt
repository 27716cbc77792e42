// The query of a raw query.
ghost use Rattle.std.specs.Prelude.{◌≡◌, ◌<◌, ◌+◌, ◌^◌, IfOk};
ghost use Rattle.mk_rgfile.specs.QueryFacts.{member_count};
ghost use Rattle.mk_query.specs.declared.compile_fault.CompileFault.TheVariants as compile_fault;
ghost use Rattle.mk_query.specs.Compiled.{IsQueryOf};
ghost use Rattle.mk_query.specs.CompileFaults.{IfFault, IsFirstCompileFault, PassChecks};
ghost use Rattle.mk_query.specs.InRange.{HaveFewProperties, IsQueryInRange};

use crate::compile_fault::{CompileFault, FaultAt};
use crate::draft::Draft;
use crate::query_groups::groups_of;
use crate::table_walk::put_tables;
use crate::whole_checks::first_across;
use mk_model::Query;
use mk_rgfile::RawQuery;
use std::alloc::Global;

/// The query that a raw query means, or the first check that it fails. Tables count from 0: the
/// root, then the members in the order of the file.
///
/// It asks that each table has at most 999 atoms, at most 999 bonds and fewer than 2^32 properties,
/// with 1 to 5 numbers in each atom list and 1 to 16 symbols in each `M  ALS`; that the numbers of
/// groups are from 1 to 32; and that there are fewer than 2^32 - 1 members in all. A group may have
/// no member. What `read_rgfile` gives of a text of fewer than 2^32 bytes is such (`in_range` and
/// `few_by_lines` in `proofs/ForCallers.antt`).
pub fn compile(alloc: Global, raw: &RawQuery) -> Result<Query, CompileFault>
    requires in_range { IsQueryInRange raw.now }
    requires few_members { member_count raw.now + 1 < 2 ^ 32 }
    requires few_properties { HaveFewProperties raw.now }

    ensures query { IfOk result (IsQueryOf raw.now) }
    ensures passed { IfOk result (PassChecks raw.now) }

    ensures fault { IfFault result (IsFirstCompileFault raw.now) }
{
    let mut templates = Vec::new(alloc);
    if let Some(fault) = put_tables(alloc, raw, &mut templates)? {
        return Err(named(fault));
    }
    let draft = Draft::of(templates, groups_of(alloc, raw)?);
    if let Some(fault) = first_across(alloc, raw, &draft)? {
        return Err(named(fault));
    }
    Ok(draft.into_query())
}

fn named(fault: FaultAt) -> CompileFault
    ensures { result ≡ compile_fault.Check fault.check fault.table fault.item }
{
    CompileFault::Check {
        check: fault.check,
        table: fault.table,
        item: fault.item,
    }
}
