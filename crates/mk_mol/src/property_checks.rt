// What is demanded of properties.
ghost use Rattle.std.specs.Prelude.{◌<◌, ◌^◌, ◌↔◌, IsTrue, length};
ghost use Rattle.mk_text.specs.Items.{FindsLeast, OfItem};
ghost use Rattle.mk_demands.specs.Values.{HasKnownValues, NamesAtoms};
ghost use Rattle.mk_mol.specs.Checks.{IsOfMolecules};

use mk_demands::{has_known_values, names_atoms};
use mk_props::Property;

/// The first property that names an atom that isn't there.
pub fn first_misnamed(atoms: u32, props: &[Property]) -> Option<u32>
    requires { length props.now < 2 ^ 32 }
    ensures { FindsLeast (OfItem (NamesAtoms atoms) props.now) result }
{
    for (i, property) in props.iter().enumerate() {
        if !names_atoms(atoms, property) {
            return Some(i as u32 + 1);
        }
    }
    None
}

/// The first property that gives a charge or a radical that there isn't.
pub fn first_unknown_value(props: &[Property]) -> Option<u32>
    requires { length props.now < 2 ^ 32 }
    ensures { FindsLeast (OfItem HasKnownValues props.now) result }
{
    for (i, property) in props.iter().enumerate() {
        if !has_known_values(property) {
            return Some(i as u32 + 1);
        }
    }
    None
}

/// The first property that a molecule can't have.
pub fn first_foreign(props: &[Property]) -> Option<u32>
    requires { length props.now < 2 ^ 32 }
    ensures { FindsLeast (OfItem IsOfMolecules props.now) result }
{
    for (i, property) in props.iter().enumerate() {
        if !is_of_molecules(property) {
            return Some(i as u32 + 1);
        }
    }
    None
}

fn is_of_molecules(property: &Property) -> bool
    ensures { IsTrue result ↔ IsOfMolecules property.now }
{
    match property {
        Property::Charge(_) | Property::Radical(_) | Property::Isotope(_) => true,
        _ => false,
    }
}
