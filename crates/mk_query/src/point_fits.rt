// Sites whose members don't have as many attachment points as the site has neighbours. Whether all
// members of a group have one point, and whether all have two, is found out once for each group.
ghost use Rattle.std.specs.Prelude.{◌≡◌, ◌<◌, ◌↔◌, All, IfOk, IsTrue, length};
ghost use Rattle.mk_model.specs.Templates.{slot_atom};
ghost use Rattle.mk_query.specs.PointFits.{AllHavePoints, AreTold, FindsMisfit, FindsUnfit, all_told, told_fit};

use crate::draft::{Draft, GROUPS};
use crate::sites::site_mark;
use mk_model::Slot;
use mk_text::Memory;
use std::alloc::Global;

/// A table and the atom of a site in it.
#[derive(Clone, Copy)]
pub struct SitePlace {
    pub table: u32,
    pub atom: u32,
}

/// The first site whose members don't have as many points as it has neighbours: the first table,
/// and in it the lowest atom.
pub fn first_misfit(alloc: Global, draft: &Draft) -> Result<Option<SitePlace>, Memory>
    ensures { IfOk result (FindsMisfit draft.now) }
{
    let one = told(alloc, draft, 1)?;
    let two = told(alloc, draft, 2)?;
    for t in 0..draft.count() {
        if let Some(atom) = first_unfit(draft.template(t).slots(), &one, &two) {
            return Ok(Some(SitePlace { table: t, atom }));
        }
    }
    Ok(None)
}

// The atom of the first slot that doesn't fit.
fn first_unfit(slots: &[Slot], one: &[bool], two: &[bool]) -> Option<u32>
    ensures { FindsUnfit one.now two.now slots.now result }
{
    for i in 0..slots.len() {
        if !told_fit(&slots[i], one, two) {
            return Some(slot_atom(&slots[i]));
        }
    }
    None
}

fn told_fit(slot: &Slot, one: &[bool], two: &[bool]) -> bool
    ensures { result ≡ told_fit one.now two.now slot.now }
{
    match slot {
        Slot::Link { .. } => true,
        Slot::Site { groups, second, .. } => {
            if *second == 0 {
                all_told(one, groups.as_slice())
            } else {
                all_told(two, groups.as_slice())
            }
        }
    }
}

// Of each of these groups the list tells that its members have so many points.
fn all_told(list: &[bool], groups: &[u32]) -> bool
    ensures { result ≡ all_told list.now groups.now }
{
    for i in 0..groups.len() {
        if !site_mark(list, groups[i]) {
            return false;
        }
    }
    true
}

fn slot_atom(slot: &Slot) -> u32
    ensures { result ≡ slot_atom slot.now }
{
    match slot {
        Slot::Link { atom, .. } => *atom,
        Slot::Site { atom, .. } => *atom,
    }
}

// For each group, whether its members have so many points.
fn told(alloc: Global, draft: &Draft, n: usize) -> Result<Vec<bool>, Memory>
    ensures { IfOk result (λ list. AreTold draft.now n list.items) }
{
    let mut list = Vec::with_capacity(alloc, GROUPS as usize)?;
    for g in 0..GROUPS {
        list.push(all_have_points(draft, draft.members(g), n))?;
    }
    Ok(list)
}

fn all_have_points(draft: &Draft, members: &[u32], n: usize) -> bool
    requires { All (λ u. u < length draft.now.templates) members.now }
    ensures { IsTrue result ↔ AllHavePoints draft.now.templates n members.now }
{
    for i in 0..members.len() {
        if draft.template(members[i]).points().len() != n {
            return false;
        }
    }
    true
}
