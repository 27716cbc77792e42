// What is demanded of a molecule's bonds, and the numbers of each atom's bonds.
ghost use Rattle.std.specs.Prelude.{◌≡◌, ◌≤◌, ◌↔◌, IfOk, IsTrue, OnOk, length};
ghost use Rattle.mk_text.specs.Items.{FindsLeast, OfItem};
ghost use Rattle.mk_model.specs.Edges.{IsSimple, rows_of};
ghost use Rattle.mk_demands.specs.Bonds.{edges_of, IsEdgeFront};
ghost use Rattle.mk_mol.specs.Answers.{IfCheck};
ghost use Rattle.mk_mol.specs.Checks.{HasKnownType};
ghost use Rattle.mk_mol.specs.FirstFault.{IsFirstMoleculeFault, MeetsChecksBelow};
ghost use Rattle.mk_mol.specs.Search.{IsDrawn};

use crate::PrepareFault;
use mk_demands::{edges_between, first_crowded_atom, first_no_new_bond, is_within};
use mk_model::{Edge, Neighbours};
use mk_tables::{RawBond, RawTable};
use std::alloc::Global;

/// The bonds as edges, and the numbers of each atom's bonds.
#[derive(Debug, Drop)]
pub struct Drawn {
    pub edges: Vec<Edge>,
    pub near: Neighbours,
}

/// Checks the bonds, and gives them.
pub fn check_bonds(alloc: Global, table: &RawTable) -> Result<Drawn, PrepareFault>
    requires few_atoms { length table.now.atoms ≤ 999 }
    requires few_bonds { length table.now.bonds ≤ 999 }
    requires earlier { MeetsChecksBelow table.now 2 }
    ensures drawn { IfOk result (IsDrawn table.now) }
    ensures passes { OnOk result (MeetsChecksBelow table.now 5) }
    ensures fault { IfCheck result (IsFirstMoleculeFault table.now) }
{
    let atoms = table.atoms.as_slice().len() as u32;
    let edges = edges_between(alloc, atoms, table.bonds.as_slice())?;
    let near = Neighbours::of(alloc, atoms, &edges)?;
    check_drawn(table, &edges, &near)?;
    Ok(Drawn { edges, near })
}

// Checks the bonds whose edges, as far as their ends are atoms, are these.
fn check_drawn(table: &RawTable, edges: &[Edge], near: &Neighbours) -> Result<(), PrepareFault>
    requires few_atoms { length table.now.atoms ≤ 999 }
    requires few_bonds { length table.now.bonds ≤ 999 }
    requires earlier { MeetsChecksBelow table.now 2 }
    requires front { IsEdgeFront (length table.now.atoms) table.now.bonds edges.now }
    requires rows { near.now ≡ rows_of (length near.now) edges.now }
    requires size { length near.now ≡ length table.now.atoms }
    ensures whole { OnOk result (edges.now ≡ edges_of table.now.bonds) }
    ensures graph { OnOk result (IsSimple (length table.now.atoms) edges.now) }
    ensures passes { OnOk result (MeetsChecksBelow table.now 5) }
    ensures fault { IfCheck result (IsFirstMoleculeFault table.now) }
{
    let bonds = table.bonds.as_slice();
    let atoms = table.atoms.as_slice().len() as u32;
    if let Some(item) = first_no_new_bond(edges, near, bonds) {
        return Err(PrepareFault::Check { check: 2, item });
    }
    if let Some(item) = first_unknown_type(bonds) {
        return Err(PrepareFault::Check { check: 3, item });
    }
    if let Some(item) = first_crowded_atom(near, atoms) {
        return Err(PrepareFault::Check { check: 4, item });
    }
    Ok(())
}

// The first bond of an unknown type.
fn first_unknown_type(bonds: &[RawBond]) -> Option<u32>
    requires { length bonds.now ≤ 999 }
    ensures { FindsLeast (OfItem HasKnownType bonds.now) result }
{
    for (i, bond) in bonds.iter().enumerate() {
        if !has_known_type(bond) {
            return Some(i as u32 + 1);
        }
    }
    None
}

fn has_known_type(bond: &RawBond) -> bool
    ensures { IsTrue result ↔ HasKnownType bond.now }
{
    is_within(1, 4, bond.kind)
}
