// The written atoms, with their charges and radicals.
ghost use Rattle.std.specs.Prelude.{◌≡◌, ◌≤◌, All, IfOk};
ghost use Rattle.mk_elements.specs.Symbols.{NamesElement};
ghost use Rattle.mk_model.specs.Molecules.{IsElement};
ghost use Rattle.mk_demands.specs.Charges.{HasRadical};
ghost use Rattle.mk_mol.specs.Checks.{IsElementSymbol};
ghost use Rattle.mk_mol.specs.Filled.{AreWrittenAtoms};
ghost use Rattle.mk_mol.specs.FirstFault.{MeetsAllChecks};
ghost use Rattle.mk_mol.specs.Putting.{IsSound};

use mk_demands::{Electrons, charges_and_radicals};
use mk_elements::number_of;
use mk_model::{Atom, Memory};
use mk_tables::RawTable;
use std::alloc::Global;

/// The atoms of the atom lines, with the charges and radicals that hold.
pub fn written_atoms(alloc: Global, table: &RawTable) -> Result<Vec<Atom>, Memory>
    requires { MeetsAllChecks table.now }
    ensures written { IfOk result (λ atoms. AreWrittenAtoms table.now atoms.items) }
    ensures sound { IfOk result (λ atoms. All IsSound atoms.items) }
{
    let list = charges_and_radicals(alloc, table)?;
    let lines = table.atoms.as_slice();
    let mut atoms = Vec::with_capacity(alloc, lines.len())?;
    for i in 0..lines.len() {
        atoms.push(atom_of(lines[i].symbol.as_slice(), list[i]))?;
    }
    Ok(atoms)
}

fn atom_of(symbol: &[u8], electrons: Electrons) -> Atom
    requires named { IsElementSymbol symbol.now }
    requires small { HasRadical electrons }
    ensures element { NamesElement symbol.now result.element }
    ensures charge { result.charge ≡ electrons.charge }
    ensures radical { result.radical ≡ electrons.radical }
    ensures sound { IsSound result }
{
    Atom {
        element: element_of(symbol),
        charge: electrons.charge,
        radical: electrons.radical,
    }
}

// The element that the bytes name.
fn element_of(symbol: &[u8]) -> u8
    requires { IsElementSymbol symbol.now }
    ensures names { NamesElement symbol.now result }
    ensures element { IsElement result }
{
    number_of(symbol).unwrap()
}
