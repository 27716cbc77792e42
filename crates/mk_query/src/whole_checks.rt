// The checks across the tables of a raw query.
ghost use Rattle.std.specs.Prelude.{◌≡◌, ◌≤◌, ◌<◌, IfOk, if◌then◌else◌};
ghost use Rattle.mk_text.specs.Items.{FindsLeast};
ghost use Rattle.mk_rgfile.specs.QueryFacts.{members_in};
ghost use Rattle.mk_query.specs.CompileFaults.{IsWhole, groups_of_number};
ghost use Rattle.mk_query.specs.InRange.{IsQueryInRange};
ghost use Rattle.mk_query.specs.TableWalk.{FindsAcross};

use crate::compile_fault::FaultAt;
use crate::draft::{Draft, GROUPS};
use crate::point_fits::first_misfit;
use crate::recursion::first_recursive;
use crate::root_sizes::is_small;
use mk_rgfile::{RawGroup, RawQuery};
use mk_text::Memory;
use std::alloc::Global;

// How many members there may be.
const MOST_MEMBERS: usize = 4096;

/// The first of the checks across tables that fails.
pub fn first_across(alloc: Global, raw: &RawQuery, draft: &Draft) -> Result<Option<FaultAt>, Memory>
    requires { IsQueryInRange raw.now }
    ensures { IfOk result (FindsAcross raw.now draft.now) }
{
    if let Some(table) = first_recursive(alloc, draft)? {
        return Ok(Some(FaultAt {
            check: 11,
            table,
            item: 0,
        }));
    }
    if let Some(place) = first_misfit(alloc, draft)? {
        return Ok(Some(FaultAt {
            check: 12,
            table: place.table,
            item: place.atom,
        }));
    }
    let small = is_small(alloc, draft)?;
    if !small {
        return Ok(Some(FaultAt {
            check: 13,
            table: 0,
            item: 0,
        }));
    }
    if let Some(item) = first_of_whole(raw) {
        return Ok(Some(FaultAt {
            check: 14,
            table: 0,
            item,
        }));
    }
    Ok(None)
}

// The item of the last check: 0 for a root without an atom, the least group number that stands
// twice, or 4,097.
fn first_of_whole(raw: &RawQuery) -> Option<u32>
    requires { IsQueryInRange raw.now }
    ensures { FindsLeast (IsWhole raw.now) result }
{
    if raw.root.atoms.as_slice().len() == 0 {
        return Some(0);
    }
    let groups = raw.groups.as_slice();
    for i in 0..GROUPS {
        if groups_of_number(i + 1, groups) > 1 {
            return Some(i + 1);
        }
    }
    if members_in(groups) > MOST_MEMBERS {
        return Some(MOST_MEMBERS as u32 + 1);
    }
    None
}

// How many groups of this number there are.
fn groups_of_number(g: u32, groups: &[RawGroup]) -> usize
    ensures { result ≡ groups_of_number g groups.now }
{
    let mut count = 0;
    for i in 0..groups.len() {
        count += one_if(groups[i].number as u32 == g);
    }
    count
}

fn one_if(so: bool) -> usize
    ensures { result ≡ (if so then 1 else 0) }
{
    if so { 1 } else { 0 }
}

// How many members there are, or a number above 4,096.
fn members_in(groups: &[RawGroup]) -> usize
    ensures few { result ≤ 4096 → result ≡ members_in groups.now }
    ensures many { 4096 < result → 4096 < members_in groups.now }
{
    let mut count = 0;
    for i in 0..groups.len() {
        count += groups[i].members.as_slice().len();
        if count > MOST_MEMBERS {
            return count;
        }
    }
    count
}
