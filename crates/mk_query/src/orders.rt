// What is demanded of the orders of sites' neighbours.
ghost use Rattle.std.specs.Prelude.{◌≡◌, ◌≤◌, ◌<◌, ◌+◌, ◌-◌, ◌^◌, ◌==◌, ◌||◌, ◌↔◌, ℕ, pos, false, Some, IfOk, IsTrue, length, slice_index_or, if◌then◌else◌};
ghost use Rattle.mk_text.specs.Items.{FindsLeast};
ghost use Rattle.mk_demands.specs.Numbers.{IsAtom, natural};
ghost use Rattle.mk_query.specs.declared.drawn.Near.TheVariants.{Nothing};
ghost use Rattle.mk_query.specs.OrderSearch.{Gives, IsOrderBy, IsOrderedBy, IsSeen, Names, OrdersNear};
ghost use Rattle.mk_query.specs.SiteChecks.{HasSiteOrder, HasSitePlace};

use crate::drawn::Near;
use crate::notes::Notes;
use crate::sites::site_mark;
use mk_demands::{is_atom, natural};
use mk_props::{Pair, Property, SiteOrder};
use mk_text::Memory;
use std::alloc::Global;

/// The first `M  AAL` that isn't of a site, that a later one of the site supersedes, or that
/// doesn't order the site's neighbours.
pub fn first_disordered_site(alloc: Global, notes: &Notes<'_>) -> Result<Option<u32>, Memory>
    requires few_properties { length notes.now.table.now.props < 2 ^ 32 }
    requires placed { (item : ℕ) → HasSitePlace notes.now.table.now item }
    ensures { IfOk result (FindsLeast (HasSiteOrder notes.now.table.now)) }
{
    let atoms = notes.table.atoms.as_slice();
    let mut seen = vec![in alloc; false; atoms.len()]?;
    let props = notes.table.props.as_slice();
    let mut found = None;
    // from behind, so that the later ones of a site are known
    for i in (0..props.len()).rev() {
        let right = is_ordered(
            &notes.standing.sites,
            &notes.standing.near,
            &seen,
            &props[i],
        );
        found = found_or(right, i as u32 + 1, found);
        mark_property(&mut seen, &props[i]);
    }
    Ok(found)
}

// The item where it isn't right, and else what was found behind it.
fn found_or(right: bool, item: u32, found: Option<u32>) -> Option<u32>
    ensures { result ≡ (if right then found else Some item) }
{
    if right { found } else { Some(item) }
}

fn is_ordered(sites: &[bool], near: &[Near], seen: &[bool], property: &Property) -> bool
    requires { length sites.now ≤ 999 }
    ensures { IsTrue result ↔ IsOrderedBy sites.now near.now seen.now property.now }
{
    match property {
        Property::Order(order) => is_site_order(sites, near, seen, order),
        _ => true,
    }
}

fn is_site_order(sites: &[bool], near: &[Near], seen: &[bool], order: &SiteOrder) -> bool
    requires { length sites.now ≤ 999 }
    ensures { IsTrue result ↔ IsOrderBy sites.now near.now seen.now order.now }
{
    if !names_atom(sites.len() as u32, order) {
        return false;
    }
    let x = atom_of(order);
    site_mark(sites, x) && !site_mark(seen, x) && orders(order.entries.as_slice(), near_at(near, x))
}

// The neighbours that are noted of atom x.
fn near_at(near: &[Near], x: u32) -> Near
    ensures { result ≡ slice_index_or near.now (x - 1) Nothing }
{
    near.get((x as usize).saturating_sub(1))
        .copied()
        .unwrap_or(Near::Nothing)
}

fn names_atom(atoms: u32, order: &SiteOrder) -> bool
    ensures { IsTrue result ↔ IsAtom atoms order.now.atom }
{
    is_atom(atoms, order.atom)
}

fn atom_of(order: &SiteOrder) -> u32
    ensures { result ≡ natural order.now.atom }
{
    natural(order.atom)
}

// Whether the entries name each neighbour, give each place, and are no more.
fn orders(entries: &[Pair], near: Near) -> bool
    ensures { IsTrue result ↔ OrdersNear entries.now near }
{
    match near {
        Near::One(y) => entries.len() == 1 && names(entries, y) && gives(entries, 1),
        Near::Two(y, z) => {
            entries.len() == 2
                && names_both(entries, y, z)
                && gives(entries, 1)
                && gives(entries, 2)
        }
        _ => false,
    }
}

fn names_both(entries: &[Pair], y: u32, z: u32) -> bool
    ensures { IsTrue result ↔ (Names entries.now y × Names entries.now z) }
{
    names(entries, y) && names(entries, z)
}

fn names(entries: &[Pair], y: u32) -> bool
    ensures { IsTrue result ↔ Names entries.now y }
{
    for pair in entries {
        if is_of(pair, y) {
            return true;
        }
    }
    false
}

fn is_of(pair: &Pair, y: u32) -> bool
    ensures { IsTrue result ↔ pair.now.atom ≡ pos y }
{
    pair.atom >= 0 && pair.atom as u32 == y
}

fn gives(entries: &[Pair], k: u32) -> bool
    ensures { IsTrue result ↔ Gives entries.now k }
{
    for pair in entries {
        if has_place(pair, k) {
            return true;
        }
    }
    false
}

fn has_place(pair: &Pair, k: u32) -> bool
    ensures { IsTrue result ↔ pair.now.value ≡ pos k }
{
    pair.value >= 0 && pair.value as u32 == k
}

// Marks the site of an `M  AAL`.
fn mark_property(seen: &mut Vec<bool>, property: &Property)
    ensures { IsSeen property.now seen.old.items seen.new.items }
{
    match property {
        Property::Order(order) => mark_site(seen, atom_of(order)),
        _ => {}
    }
}

fn mark_site(seen: &mut Vec<bool>, n: u32)
    ensures size { length seen.new.items ≡ length seen.old.items }
    ensures marked { (k : ℕ) → k < length seen.old.items
        → slice_index_or seen.new.items k false ≡ (n == k + 1 || slice_index_or seen.old.items k false) }
{
    let place = n as usize;
    if place >= 1 && place <= seen.len() {
        seen[place - 1] = true;
    }
}
