// The checks in their order.
ghost use Rattle.std.specs.Prelude.{◌≤◌, ◌<◌, ◌^◌, IfOk, OnOk, length};
ghost use Rattle.mk_mol.specs.Answers.{IfCheck};
ghost use Rattle.mk_mol.specs.FirstFault.{IsFirstMoleculeFault, MeetsAllChecks, MeetsChecksBelow};
ghost use Rattle.mk_mol.specs.Search.{IsDrawn};

use crate::PrepareFault;
use crate::atom_checks::first_unknown_atom;
use crate::bond_checks::{Drawn, check_bonds};
use crate::property_checks::{first_foreign, first_misnamed, first_unknown_value};
use mk_tables::RawTable;
use std::alloc::Global;

/// The bonds of a table that passes every check, or the first check that fails.
pub fn check_all(alloc: Global, table: &RawTable) -> Result<Drawn, PrepareFault>
    requires few_atoms { length table.now.atoms ≤ 999 }
    requires few_bonds { length table.now.bonds ≤ 999 }
    requires few_properties { length table.now.props < 2 ^ 32 }
    ensures drawn { IfOk result (IsDrawn table.now) }
    ensures passes { OnOk result (MeetsAllChecks table.now) }
    ensures fault { IfCheck result (IsFirstMoleculeFault table.now) }
{
    check_atoms(table)?;
    let drawn = check_bonds(alloc, table)?;
    check_named_atoms(table)?;
    check_values(table)?;
    check_kinds(table)?;
    Ok(drawn)
}

fn check_atoms(table: &RawTable) -> Result<(), PrepareFault>
    requires { length table.now.atoms ≤ 999 }
    ensures passes { OnOk result (MeetsChecksBelow table.now 2) }
    ensures fault { IfCheck result (IsFirstMoleculeFault table.now) }
{
    match first_unknown_atom(table.atoms.as_slice()) {
        Some(item) => Err(PrepareFault::Check { check: 1, item }),
        None => Ok(()),
    }
}

fn check_named_atoms(table: &RawTable) -> Result<(), PrepareFault>
    requires few_atoms { length table.now.atoms ≤ 999 }
    requires few_properties { length table.now.props < 2 ^ 32 }
    requires earlier { MeetsChecksBelow table.now 5 }
    ensures passes { OnOk result (MeetsChecksBelow table.now 6) }
    ensures fault { IfCheck result (IsFirstMoleculeFault table.now) }
{
    let atoms = table.atoms.as_slice().len() as u32;
    match first_misnamed(atoms, table.props.as_slice()) {
        Some(item) => Err(PrepareFault::Check { check: 5, item }),
        None => Ok(()),
    }
}

fn check_values(table: &RawTable) -> Result<(), PrepareFault>
    requires few_properties { length table.now.props < 2 ^ 32 }
    requires earlier { MeetsChecksBelow table.now 6 }
    ensures passes { OnOk result (MeetsChecksBelow table.now 7) }
    ensures fault { IfCheck result (IsFirstMoleculeFault table.now) }
{
    match first_unknown_value(table.props.as_slice()) {
        Some(item) => Err(PrepareFault::Check { check: 6, item }),
        None => Ok(()),
    }
}

fn check_kinds(table: &RawTable) -> Result<(), PrepareFault>
    requires few_properties { length table.now.props < 2 ^ 32 }
    requires earlier { MeetsChecksBelow table.now 7 }
    ensures passes { OnOk result (MeetsAllChecks table.now) }
    ensures fault { IfCheck result (IsFirstMoleculeFault table.now) }
{
    if !table.lists.as_slice().is_empty() {
        return Err(PrepareFault::Check { check: 7, item: 0 });
    }
    match first_foreign(table.props.as_slice()) {
        Some(item) => Err(PrepareFault::Check { check: 7, item }),
        None => Ok(()),
    }
}
