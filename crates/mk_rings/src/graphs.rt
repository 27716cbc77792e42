// Graphs of queries with the marks of their bonds.
ghost use Rattle.std.specs.Prelude.{◌≡◌, ◌<◌, ℕ, false, IfOk, length, slice_index_or};
ghost use Rattle.mk_model.specs.declared.graph.GraphBond.{GraphBond as Drawn};
ghost use Rattle.mk_model.specs.Graphs.{IsUnmarked};
ghost use Rattle.mk_marks.specs.Bare.{bare_bonds};

use crate::aromatic::aromatic_bonds_over;
use crate::marking::{neighbours_of, ring_bonds_over};
use mk_model::{Graph, GraphAtom, GraphBond, Memory, edges_of_graph};
use std::alloc::Global;

/// Keeps atoms and bonds as a graph, with the marks of its own bonds in place of those that are
/// given.
pub fn marked_graph(
    alloc: Global,
    atoms: Vec<GraphAtom>,
    bonds: Vec<GraphBond>,
) -> Result<Graph, Memory>
    requires { IsUnmarked (record { atoms = atoms.items; bonds = bonds.items }) }
    ensures atoms { IfOk result (λ graph. graph.atoms ≡ atoms.items) }
    ensures bonds { IfOk result (λ graph. bare_bonds graph.bonds ≡ bare_bonds bonds.items) }
{
    let count = atoms.len() as u32;
    let edges = edges_of_graph(alloc, &bonds)?;
    let near = neighbours_of(alloc, count, &edges)?;
    let rings = ring_bonds_over(alloc, &near, count, &edges)?;
    let aromatics = aromatic_bonds_over(alloc, &near, count, &edges, &rings)?;
    let mut marked = bonds;
    put_marks(&mut marked, &rings, &aromatics);
    Ok(Graph::over(atoms, marked, near))
}

// Puts the marks.
fn put_marks(bonds: &mut Vec<GraphBond>, rings: &[bool], aromatics: &[bool])
    requires rings { length rings.now ≡ length bonds.old.items }
    requires aromatics { length aromatics.now ≡ length bonds.old.items }
    ensures size { length bonds.new.items ≡ length bonds.old.items }
    ensures same { bare_bonds bonds.new.items ≡ bare_bonds bonds.old.items }
    ensures ring { (b : ℕ) (d : Drawn) → b < length bonds.new.items → (slice_index_or bonds.new.items b d).ring ≡ slice_index_or rings.now b false }
    ensures aromatic { (b : ℕ) (d : Drawn) → b < length bonds.new.items → (slice_index_or bonds.new.items b d).aromatic ≡ slice_index_or aromatics.now b false }
{
    for b in 0..bonds.len() {
        bonds[b] = with_marks(bonds[b], rings[b], aromatics[b]);
    }
}

// The bond with these marks.
fn with_marks(bond: GraphBond, ring: bool, aromatic: bool) -> GraphBond
    ensures { result ≡ record bond { ring = ring; aromatic = aromatic } }
{
    GraphBond {
        ring,
        aromatic,
        ..bond
    }
}
