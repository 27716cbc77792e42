// Tables that use themselves. They are looked for over groups: which group leads to which is a
// table of 32 rows, and a member of a group uses itself where one of its sites leads back to the
// group.
ghost use Rattle.std.specs.Prelude.{◌≡◌, ◌≤◌, ◌<◌, ◌+◌, ◌==◌, ◌&&◌, ◌||◌, All, IfOk, ℕ};
ghost use Rattle.std.specs.List.{list_any};
ghost use Rattle.mk_text.specs.Items.{FindsLeast};
ghost use Rattle.mk_model.specs.Labels.{bears_label};
ghost use Rattle.mk_model.specs.Queries.{members_of};
ghost use Rattle.mk_query.specs.CompileFaults.{IsNoCycle};
ghost use Rattle.mk_query.specs.Recursion.{ComesBack, HasAlso, Holds, NamesGroups, asks_for, cell, comes_back, entry, leads, leads_on};

use crate::draft::{Draft, GROUPS};
use crate::drawn::{has_group, with_group};
use mk_model::Slot;
use mk_text::Memory;
use std::alloc::Global;

/// The first table that uses itself, directly or through others.
pub fn first_recursive(alloc: Global, draft: &Draft) -> Result<Option<u32>, Memory>
    ensures { IfOk result (FindsLeast (IsNoCycle draft.now)) }
{
    let leads = all_leads(alloc, draft)?;
    let none = draft.count();
    let mut least = none;
    for g in 0..GROUPS {
        least = least_in_group(draft, &leads, g, least);
    }
    if least < none {
        return Ok(Some(least));
    }
    Ok(None)
}

// The first member of group g + 1, below a bound, from which a site leads back to the group, or
// else the bound.
fn least_in_group(draft: &Draft, leads: &[bool], g: u32, bound: u32) -> u32
    requires { g < 32 }
    ensures most { result ≤ bound }
    ensures found { result < bound → ComesBack draft.now leads.now (members_of draft.now (g + 1)) (g + 1) result }
    ensures least { (u : ℕ) → ComesBack draft.now leads.now (members_of draft.now (g + 1)) (g + 1) u → result ≤ u }
{
    let members = draft.members(g);
    let mut least = bound;
    for i in 0..members.len() {
        let u = members[i];
        if u >= least {
            continue;
        }
        if !comes_back(draft.slots(u), leads, g + 1) {
            continue;
        }
        least = u;
    }
    least
}

// Some site leads to a group.
fn comes_back(slots: &[Slot], leads: &[bool], g: u32) -> bool
    ensures { result ≡ comes_back (entry leads.now) g slots.now }
{
    for i in 0..slots.len() {
        if leads_on(&slots[i], leads, g) {
            return true;
        }
    }
    false
}

// The slot is a site of the group, or of one that leads to it.
fn leads_on(slot: &Slot, leads: &[bool], g: u32) -> bool
    ensures { result ≡ leads_on (entry leads.now) g slot.now }
{
    let labels = slot.labels();
    for i in 0..labels.len() {
        if labels[i] == g || entry(leads, labels[i], g) {
            return true;
        }
    }
    false
}

fn entry(leads: &[bool], g: u32, h: u32) -> bool
    ensures { result ≡ entry leads.now g h }
{
    cell(leads, g.saturating_sub(1), h.saturating_sub(1))
}

fn cell(list: &[bool], a: u32, b: u32) -> bool
    ensures { result ≡ cell list.now a b }
{
    list.get(32 * a as usize + b as usize)
        .copied()
        .unwrap_or(false)
}

// Which group leads to which.
fn all_leads(alloc: Global, draft: &Draft) -> Result<Vec<bool>, Memory>
    ensures { IfOk result (λ list. Holds (leads draft.now 32) list.items) }
{
    let mut list = all_asked(alloc, draft)?;
    for k in 0..GROUPS {
        list = by_way_of(alloc, &list, k)?;
    }
    Ok(list)
}

// Which group leads to which where group k + 1 may stand between, too.
fn by_way_of(alloc: Global, list: &[bool], k: u32) -> Result<Vec<bool>, Memory>
    ensures { IfOk result (λ new. Holds (λ g h. entry list.now g h || (entry list.now g (k + 1) && entry list.now (k + 1) h)) new.items) }
{
    let mut new = Vec::with_capacity(alloc, 1024)?;
    for a in 0..GROUPS {
        for b in 0..GROUPS {
            new.push(leads_by(list, k, a, b))?;
        }
    }
    Ok(new)
}

fn leads_by(list: &[bool], k: u32, a: u32, b: u32) -> bool
    ensures { result ≡ (cell list.now a b || (cell list.now a k && cell list.now k b)) }
{
    cell(list, a, b) || (cell(list, a, k) && cell(list, k, b))
}

// Which group asks for which.
fn all_asked(alloc: Global, draft: &Draft) -> Result<Vec<bool>, Memory>
    ensures { IfOk result (λ list. Holds (asks_for draft.now) list.items) }
{
    let mut list = Vec::with_capacity(alloc, 1024)?;
    for a in 0..GROUPS {
        let asked = asked_by(draft, a);
        for b in 0..GROUPS {
            list.push(has_group(asked, b + 1))?;
        }
    }
    Ok(list)
}

// The groups for which the members of group a + 1 ask, as bits.
fn asked_by(draft: &Draft, a: u32) -> u32
    requires { a < 32 }
    ensures { HasAlso result 0 (asks_for draft.now (a + 1)) }
{
    let members = draft.members(a);
    let mut all = 0;
    for i in 0..members.len() {
        all = with_slots(all, draft.slots(members[i]));
    }
    all
}

// Sets the bits of the labels of some slots.
fn with_slots(groups: u32, slots: &[Slot]) -> u32
    requires { All NamesGroups slots.now }
    ensures { HasAlso result groups (λ h. list_any (λ slot. bears_label slot h) slots.now) }
{
    let mut all = groups;
    for i in 0..slots.len() {
        all = with_labels(all, slots[i].labels());
    }
    all
}

// Sets the bits of some labels.
fn with_labels(groups: u32, labels: &[u32]) -> u32
    requires { All (λ h. (1 ≤ h) × (h ≤ 32)) labels.now }
    ensures { HasAlso result groups (λ h. list_any (λ l. l == h) labels.now) }
{
    let mut all = groups;
    for i in 0..labels.len() {
        all = with_group(all, labels[i]);
    }
    all
}
