// The filled molecule of a table that passes its checks.
ghost use Rattle.std.specs.Prelude.{◌≤◌, IfOk, length};
ghost use Rattle.mk_mol.specs.Filled.{IsFilled};
ghost use Rattle.mk_mol.specs.FirstFault.{MeetsAllChecks};
ghost use Rattle.mk_mol.specs.Search.{IsDrawn};

use crate::bond_checks::Drawn;
use crate::hydrogen_filling::{add_hydrogens, add_unmarked, gains_of};
use crate::written_atoms::written_atoms;
use mk_model::{Memory, Mol, Neighbours};
use mk_rings::marked_bonds;
use mk_tables::RawTable;
use std::alloc::Global;

/// The filled molecule. Marks are found before hydrogens are added: each of these has one bond, which
/// lies in no ring, and leaves the marks of all others as they are.
pub fn fill(alloc: Global, table: &RawTable, drawn: Drawn) -> Result<Mol, Memory>
    requires few_atoms { length table.now.atoms ≤ 999 }
    requires few_bonds { length table.now.bonds ≤ 999 }
    requires passes { MeetsAllChecks table.now }
    requires drawn { IsDrawn table.now drawn }
    ensures { IfOk result (IsFilled table.now) }
{
    let mut atoms = written_atoms(alloc, table)?;
    let written = atoms.len() as u32;
    let gains = gains_of(alloc, table, &atoms, &drawn)?;
    let Drawn { edges, near } = drawn;
    let mut bonds = marked_bonds(alloc, &near, written, &edges)?;
    let mut edges = edges;
    let drawn_bonds = edges.len();
    add_hydrogens(&mut atoms, &mut edges, &gains)?;
    add_unmarked(&mut bonds, &edges[drawn_bonds..])?;
    let count = atoms.len() as u32;
    let neighbours = Neighbours::of(alloc, count, &edges)?;
    Ok(Mol::over(written, atoms, bonds, neighbours))
}
