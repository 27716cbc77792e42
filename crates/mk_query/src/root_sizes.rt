// Whether the root is small enough. The sizes of templates can have hundreds of digits, so all
// above 512 count as 513. The greatest size in each group is found by rounds: in the first no
// member is used, and 33 rounds see through any nesting, since no group leads back to itself.
ghost use Rattle.std.specs.Prelude.{◌≡◌, ◌≤◌, ◌<◌, ◌+◌, ◌↔◌, All, IfOk, IsTrue, length, max, slice_index_or, ℕ};
ghost use Rattle.mk_model.specs.Sizes.{greatest};
ghost use Rattle.mk_model.specs.Queries.{members_of};
ghost use Rattle.mk_query.specs.CompileFaults.{IsNoCycle, IsSmall};
ghost use Rattle.mk_query.specs.RootSizes.{capped, of_group, site_size, sites_size, size_by_lists};

use crate::draft::{Draft, GROUPS};
use crate::own_sizes::own_sizes;
use mk_model::Slot;
use mk_text::Memory;
use std::alloc::Global;

// What all sizes above 512 count as.
const MORE: u32 = 513;

/// The size of the root is at most 512, where no table uses itself.
pub fn is_small(alloc: Global, draft: &Draft) -> Result<bool, Memory>
    requires { (t : ℕ) → IsNoCycle draft.now t }
    ensures { IfOk result (λ small. IsTrue small ↔ IsSmall draft.now) }
{
    let own = own_sizes(alloc, draft)?;
    let mut of_groups = vec![in alloc; 0u32; GROUPS as usize]?;
    for n in 0..GROUPS + 1 {
        of_groups = next_greatest(alloc, draft, &own, &of_groups)?;
    }
    Ok(size_by_lists(draft, &own, &of_groups, 0) < MORE)
}

// The greatest sizes in the groups where chains may be longer by one.
fn next_greatest(
    alloc: Global,
    draft: &Draft,
    own: &[u32],
    of_groups: &[u32],
) -> Result<Vec<u32>, Memory>
    ensures size { IfOk result (λ next. length next.items ≡ 32) }
    ensures each { IfOk result (λ next. (g : ℕ) → g < 32
        → slice_index_or next.items g 0 ≡ greatest (size_by_lists draft.now own.now of_groups.now) (members_of draft.now (g + 1))) }
{
    let mut next = Vec::with_capacity(alloc, GROUPS as usize)?;
    for g in 0..GROUPS {
        next.push(greatest_of(draft, draft.members(g), own, of_groups))?;
    }
    Ok(next)
}

// The greatest size of some tables.
fn greatest_of(draft: &Draft, members: &[u32], own: &[u32], of_groups: &[u32]) -> u32
    requires { All (λ u. u < length draft.now.templates) members.now }
    ensures { result ≡ greatest (size_by_lists draft.now own.now of_groups.now) members.now }
{
    let mut most = 0;
    for i in 0..members.len() {
        most = max(most, size_by_lists(draft, own, of_groups, members[i]));
    }
    most
}

fn max(a: u32, b: u32) -> u32
    ensures { result ≡ max a b }
{
    if a <= b { b } else { a }
}

// The size of a table, capped.
fn size_by_lists(draft: &Draft, own: &[u32], of_groups: &[u32], u: u32) -> u32
    requires { u < length draft.now.templates }
    ensures { result ≡ size_by_lists draft.now own.now of_groups.now u }
{
    let sites = sites_size(draft.slots(u), of_groups);
    capped(number_at(own, u).saturating_add(sites))
}

/// The number, or 513 where it is above 512.
pub fn capped(n: u32) -> u32
    ensures { result ≡ capped n }
{
    if n < MORE { n } else { MORE }
}

// The number at a place of a list, and 0 where there is none.
fn number_at(list: &[u32], place: u32) -> u32
    ensures { result ≡ slice_index_or list.now place 0 }
{
    list.get(place as usize).copied().unwrap_or(0)
}

// What the sites add, capped.
fn sites_size(slots: &[Slot], of_groups: &[u32]) -> u32
    ensures { result ≡ capped (sites_size (of_group of_groups.now) slots.now) }
{
    let mut size = 0;
    for i in 0..slots.len() {
        size = capped(site_size(&slots[i], of_groups).saturating_add(size));
    }
    size
}

// What a site adds, or a number above 512 where that is more.
fn site_size(slot: &Slot, of_groups: &[u32]) -> u32
    ensures { capped result ≡ capped (site_size (of_group of_groups.now) slot.now) }
{
    match slot {
        Slot::Link { .. } => 0,
        Slot::Site { groups, second, .. } => {
            let most = greatest_among(groups.as_slice(), of_groups);
            max(most, if *second == 0 { 1 } else { 2 }).saturating_add(1)
        }
    }
}

// The greatest size in some groups.
fn greatest_among(groups: &[u32], of_groups: &[u32]) -> u32
    ensures { result ≡ greatest (of_group of_groups.now) groups.now }
{
    let mut most = 0;
    for i in 0..groups.len() {
        most = max(most, number_at(of_groups, groups[i].saturating_sub(1)));
    }
    most
}
