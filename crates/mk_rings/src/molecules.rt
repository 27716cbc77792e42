// Bonds of molecules with their marks.
ghost use Rattle.std.specs.Prelude.{◌≡◌, ℕ, IfOk, Some, slice_get};
ghost use Rattle.mk_model.specs.declared.molecule.MolBond.{MolBond as Marked};
ghost use Rattle.mk_model.specs.Edges.{IsSimple, rows_of};
ghost use Rattle.mk_model.specs.Molecules.{HasMarks, edges};

use crate::aromatic::aromatic_bonds_over;
use crate::marking::ring_bonds_over;
use mk_model::{Edge, Memory, MolBond, Neighbours};
use std::alloc::Global;

/// Gives the bonds of a molecule: the bonds of the list in order, each with the marks of the
/// definitions.
pub fn marked_bonds(
    alloc: Global,
    near: &Neighbours,
    atoms: u32,
    bonds: &[Edge],
) -> Result<Vec<MolBond>, Memory>
    requires simple { IsSimple atoms bonds.now }
    requires rows { near.now ≡ rows_of atoms bonds.now }
    ensures edges { IfOk result (λ marked. edges marked.items ≡ bonds.now) }
    ensures marks { IfOk result (λ marked. (b : ℕ) (bond : Marked) → slice_get marked.items b ≡ Some bond → HasMarks bonds.now b bond) }
{
    let rings = ring_bonds_over(alloc, near, atoms, bonds)?;
    let aromatics = aromatic_bonds_over(alloc, near, atoms, bonds, &rings)?;
    let mut marked = Vec::with_capacity(alloc, bonds.len())?;
    for b in 0..bonds.len() {
        marked.push(with_marks(bonds[b], rings[b], aromatics[b]))?;
    }
    Ok(marked)
}

// The bond with these marks.
fn with_marks(edge: Edge, ring: bool, aromatic: bool) -> MolBond
    ensures { result ≡ record { first = edge.first; second = edge.second; kind = edge.kind; ring = ring; aromatic = aromatic } }
{
    MolBond {
        first: edge.first,
        second: edge.second,
        kind: edge.kind,
        ring,
        aromatic,
    }
}
