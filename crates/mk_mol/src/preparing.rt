// From a table to its molecule.
ghost use Rattle.std.specs.Prelude.{◌≤◌, ◌<◌, ◌^◌, ℕ, IfOk, OnOk, length};
ghost use Rattle.mk_model.specs.Molecules.{IsMolecule};
ghost use Rattle.mk_mol.specs.Answers.{IfCheck, IsAccepted, IsCheck};
ghost use Rattle.mk_mol.specs.Filled.{IsFilled};
ghost use Rattle.mk_mol.specs.FirstFault.{IsFirstMoleculeFault, MeetsAllChecks};

use crate::PrepareFault;
use crate::checking::check_all;
use crate::filling::fill;
use mk_model::Mol;
use mk_tables::RawTable;
use std::alloc::Global;

/// The filled molecule of a table, or the first check that the table fails.
pub fn prepare(alloc: Global, table: &RawTable) -> Result<Mol, PrepareFault>
    requires few_atoms { length table.now.atoms ≤ 999 }
    requires few_bonds { length table.now.bonds ≤ 999 }
    requires few_properties { length table.now.props < 2 ^ 32 }

    ensures filled { IfOk result (IsFilled table.now) }
    ensures kept { IfOk result IsMolecule }
    ensures passes { OnOk result (MeetsAllChecks table.now) }
    ensures accepted { MeetsAllChecks table.now → IsAccepted result }

    ensures fault { IfCheck result (IsFirstMoleculeFault table.now) }
    ensures named { (n item : ℕ) → IsFirstMoleculeFault table.now n item → IsCheck result n item }
{
    let drawn = check_all(alloc, table)?;
    Ok(fill(alloc, table, drawn)?)
}
