// What is demanded of the atoms and the values of properties.
ghost use Rattle.std.specs.Prelude.{◌↔◌, IsTrue, negsuc, pos};
ghost use Rattle.mk_demands.specs.Numbers.{IsAtom, IsWithin};
ghost use Rattle.mk_demands.specs.Values.{AreForAtoms, HasKnownValues, HaveValues, NamesAtoms};

use crate::numbers::{is_atom, is_within};
use mk_props::{Pair, Property};

/// Whether the atoms to which the property gives charges, radicals or isotopes are there.
pub fn names_atoms(atoms: u32, property: &Property) -> bool
    ensures { IsTrue result ↔ NamesAtoms atoms property.now }
{
    match property {
        Property::Charge(pairs) => are_for_atoms(atoms, pairs.as_slice()),
        Property::Radical(pairs) => are_for_atoms(atoms, pairs.as_slice()),
        Property::Isotope(pairs) => are_for_atoms(atoms, pairs.as_slice()),
        _ => true,
    }
}

/// Whether the property gives charges and radicals that there are.
pub fn has_known_values(property: &Property) -> bool
    ensures { IsTrue result ↔ HasKnownValues property.now }
{
    match property {
        Property::Charge(pairs) => have_values(-15, 15, pairs.as_slice()),
        Property::Radical(pairs) => have_values(0, 3, pairs.as_slice()),
        _ => true,
    }
}

/// Whether each pair is for an atom.
pub fn are_for_atoms(atoms: u32, pairs: &[Pair]) -> bool
    ensures { IsTrue result ↔ AreForAtoms atoms pairs.now }
{
    for pair in pairs {
        if !is_for_atom(atoms, pair) {
            return false;
        }
    }
    true
}

fn is_for_atom(atoms: u32, pair: &Pair) -> bool
    ensures { IsTrue result ↔ IsAtom atoms pair.now.atom }
{
    is_atom(atoms, pair.atom)
}

/// Whether the values of the pairs are those from low to high.
pub fn have_values(low: i32, high: i32, pairs: &[Pair]) -> bool
    ensures { IsTrue result ↔ HaveValues low high pairs.now }
{
    for pair in pairs {
        if !has_value(low, high, pair) {
            return false;
        }
    }
    true
}

fn has_value(low: i32, high: i32, pair: &Pair) -> bool
    ensures { IsTrue result ↔ IsWithin low high pair.now.value }
{
    is_within(low, high, pair.value)
}
