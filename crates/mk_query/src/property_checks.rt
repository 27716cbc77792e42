// What is demanded of a query's properties.
ghost use Rattle.std.specs.Prelude.{◌≡◌, ◌≢◌, ◌<◌, ◌^◌, ◌↔◌, pos, negsuc, All, IsTrue, length};
ghost use Rattle.mk_text.specs.Items.{FindsLeast, OfItem};
ghost use Rattle.mk_demands.specs.Numbers.{IsAtom, IsWithin};
ghost use Rattle.mk_query.specs.Checks.{AreLinksOf, HasQueryValues, IsQueryProperty, IsRingBondCount, NamesItsAtoms};

use mk_demands::{are_for_atoms, have_values, is_atom, is_within};
use mk_props::{AtomList, LinkEntry, Pair, Property, SiteOrder};

/// The first property that gives something to an atom that isn't there, or a value that there
/// isn't.
pub fn first_unknown_property(atoms: u32, props: &[Property]) -> Option<u32>
    requires { length props.now < 2 ^ 32 }
    ensures { FindsLeast (OfItem (IsQueryProperty atoms) props.now) result }
{
    for (i, property) in props.iter().enumerate() {
        if !is_query_property(atoms, property) {
            return Some(i as u32 + 1);
        }
    }
    None
}

fn is_query_property(atoms: u32, property: &Property) -> bool
    ensures { IsTrue result ↔ IsQueryProperty atoms property.now }
{
    names_its_atoms(atoms, property) && has_query_values(property)
}

fn names_its_atoms(atoms: u32, property: &Property) -> bool
    ensures { IsTrue result ↔ NamesItsAtoms atoms property.now }
{
    match property {
        Property::Charge(pairs) => are_for_atoms(atoms, pairs.as_slice()),
        Property::Radical(pairs) => are_for_atoms(atoms, pairs.as_slice()),
        Property::Isotope(pairs) => are_for_atoms(atoms, pairs.as_slice()),
        Property::RingBonds(pairs) => are_for_atoms(atoms, pairs.as_slice()),
        Property::Substitution(pairs) => are_for_atoms(atoms, pairs.as_slice()),
        Property::Unsaturation(pairs) => are_for_atoms(atoms, pairs.as_slice()),
        Property::Label(pairs) => are_for_atoms(atoms, pairs.as_slice()),
        Property::Points(pairs) => are_for_atoms(atoms, pairs.as_slice()),
        Property::Link(links) => are_links_of(atoms, links.as_slice()),
        Property::List(list) => is_list_of(atoms, list),
        Property::Order(order) => is_order_of(atoms, order),
        _ => true,
    }
}

fn are_links_of(atoms: u32, links: &[LinkEntry]) -> bool
    ensures { IsTrue result ↔ AreLinksOf atoms links.now }
{
    for link in links {
        if !is_link_of(atoms, link) {
            return false;
        }
    }
    true
}

fn is_link_of(atoms: u32, link: &LinkEntry) -> bool
    ensures { IsTrue result ↔ IsAtom atoms link.now.atom }
{
    is_atom(atoms, link.atom)
}

fn is_list_of(atoms: u32, list: &AtomList) -> bool
    ensures { IsTrue result ↔ IsAtom atoms list.now.atom }
{
    is_atom(atoms, list.atom)
}

fn is_order_of(atoms: u32, order: &SiteOrder) -> bool
    ensures { IsTrue result ↔ IsAtom atoms order.now.atom }
{
    is_atom(atoms, order.atom)
}

fn has_query_values(property: &Property) -> bool
    ensures { IsTrue result ↔ HasQueryValues property.now }
{
    match property {
        Property::Charge(pairs) => have_values(-15, 15, pairs.as_slice()),
        Property::Radical(pairs) => have_values(0, 3, pairs.as_slice()),
        Property::RingBonds(pairs) => are_ring_bond_counts(pairs.as_slice()),
        Property::Substitution(pairs) => have_values(-2, 6, pairs.as_slice()),
        Property::Unsaturation(pairs) => have_values(0, 1, pairs.as_slice()),
        Property::Label(pairs) => have_values(1, 32, pairs.as_slice()),
        Property::Points(pairs) => have_values(1, 3, pairs.as_slice()),
        _ => true,
    }
}

fn are_ring_bond_counts(pairs: &[Pair]) -> bool
    ensures { IsTrue result ↔ All (λ pair. IsRingBondCount pair.value) pairs.now }
{
    for pair in pairs {
        if !is_ring_bond_count(pair) {
            return false;
        }
    }
    true
}

fn is_ring_bond_count(pair: &Pair) -> bool
    ensures { IsTrue result ↔ IsRingBondCount pair.now.value }
{
    is_in_ring_range(pair) && is_not_one(pair)
}

fn is_in_ring_range(pair: &Pair) -> bool
    ensures { IsTrue result ↔ IsWithin (negsuc 1) (pos 4) pair.now.value }
{
    is_within(-2, 4, pair.value)
}

fn is_not_one(pair: &Pair) -> bool
    ensures { IsTrue result ↔ pair.now.value ≢ pos 1 }
{
    pair.value != 1
}
