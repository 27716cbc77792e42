// The tables of a raw query: their templates, or the first that fails a check of its own. What is
// noted of a table serves its checks and its template.
ghost use Rattle.std.specs.Prelude.{◌≡◌, ◌≤◌, ◌<◌, ◌+◌, ◌∷◌, ◌^◌, [], All, IfOk, List, None, length};
ghost use Rattle.mk_tables.specs.declared.raw.RawTable.{RawTable as Table};
ghost use Rattle.mk_rgfile.specs.QueryFacts.{member_count};
ghost use Rattle.mk_query.specs.InRange.{HasFewProperties, HaveFewProperties, IsQueryInRange, IsTableInRange};
ghost use Rattle.mk_query.specs.Marks.{AreServed};
ghost use Rattle.mk_query.specs.TableWalk.{FindsInRoot, FindsInTables, FindsNext, IsWalked};

use crate::checking::fault_by;
use crate::compile_fault::FaultAt;
use crate::notes::Notes;
use crate::sites::served_numbers;
use crate::templates::template_of;
use mk_model::Template;
use mk_rgfile::{RawGroup, RawQuery};
use mk_tables::RawTable;
use mk_text::Memory;
use std::alloc::Global;

/// Puts the templates of all tables, or finds the first fault of the first that fails a check.
pub fn put_tables(
    alloc: Global,
    raw: &RawQuery,
    templates: &mut Vec<Template>,
) -> Result<Option<FaultAt>, Memory>
    requires in_range { IsQueryInRange raw.now }
    requires few_members { member_count raw.now + 1 < 2 ^ 32 }
    requires few_properties { HaveFewProperties raw.now }
    requires empty { templates.old.items ≡ [] }
    ensures { IfOk result (FindsInTables raw.now templates.new.items) }
{
    let served = served_numbers(alloc, raw.groups.as_slice())?;
    if let Some(fault) = put_root(alloc, &served, raw, templates)? {
        return Ok(Some(fault));
    }
    put_groups(alloc, &served, raw, templates)
}

// The same of the root.
fn put_root(
    alloc: Global,
    served: &[bool],
    raw: &RawQuery,
    templates: &mut Vec<Template>,
) -> Result<Option<FaultAt>, Memory>
    requires in_range { IsQueryInRange raw.now }
    requires few_properties { HaveFewProperties raw.now }
    requires served { AreServed raw.now.groups served.now }
    requires empty { templates.old.items ≡ [] }
    ensures { IfOk result (FindsInRoot raw.now templates.new.items) }
{
    let groups = raw.groups.as_slice();
    if let Some(fault) = put_table(alloc, served, groups, &raw.root, templates)? {
        return Ok(Some(fault));
    }
    Ok(None)
}

// The same of the members, where the root passes.
fn put_groups(
    alloc: Global,
    served: &[bool],
    raw: &RawQuery,
    templates: &mut Vec<Template>,
) -> Result<Option<FaultAt>, Memory>
    requires in_range { IsQueryInRange raw.now }
    requires few_members { member_count raw.now + 1 < 2 ^ 32 }
    requires few_properties { HaveFewProperties raw.now }
    requires served { AreServed raw.now.groups served.now }
    requires root { IsWalked raw.now.groups (raw.now.root ∷ []) templates.old.items }
    ensures { IfOk result (FindsInTables raw.now templates.new.items) }
{
    let groups = raw.groups.as_slice();
    for i in 0..groups.len() {
        let members = groups[i].members.as_slice();
        if let Some(fault) = put_members(alloc, served, groups, members, templates)? {
            return Ok(Some(fault));
        }
    }
    Ok(None)
}

// The same of some members.
fn put_members(
    alloc: Global,
    served: &[bool],
    groups: &[RawGroup],
    members: &[RawTable],
    templates: &mut Vec<Template>,
) -> Result<Option<FaultAt>, Memory>
    requires in_range { All IsTableInRange members.now }
    requires few { length templates.old.items + length members.now < 2 ^ 32 }
    requires few_properties { All HasFewProperties members.now }
    requires served { AreServed groups.now served.now }
    ensures { IfOk result (λ found. (done : List Table) → IsWalked groups.now done templates.old.items
        → FindsNext groups.now done members.now templates.new.items found) }
{
    for k in 0..members.len() {
        if let Some(fault) = put_table(alloc, served, groups, &members[k], templates)? {
            return Ok(Some(fault));
        }
    }
    Ok(None)
}

// The same of one table, which is the root where there is no template yet.
fn put_table(
    alloc: Global,
    served: &[bool],
    groups: &[RawGroup],
    table: &RawTable,
    templates: &mut Vec<Template>,
) -> Result<Option<FaultAt>, Memory>
    requires in_range { IsTableInRange table.now }
    requires few { length templates.old.items < 2 ^ 32 }
    requires few_properties { HasFewProperties table.now }
    requires served { AreServed groups.now served.now }
    ensures found { IfOk result (λ found. (done : List Table) → IsWalked groups.now done templates.old.items
        → FindsNext groups.now done (table.now ∷ []) templates.new.items found) }
    ensures size { IfOk result (λ found. found ≡ None → length templates.new.items ≡ length templates.old.items + 1) }
{
    let t = templates.len();
    let notes = Notes::of(alloc, table)?;
    if let Some(fault) = fault_by(alloc, served, t == 0, &notes)? {
        return Ok(Some(FaultAt {
            check: fault.check,
            table: t as u32,
            item: fault.item,
        }));
    }
    templates.push(template_of(alloc, &notes)?)?;
    Ok(None)
}
