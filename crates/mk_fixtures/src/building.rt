// Molecules and graphs, and the tests that what is drawn is one.
ghost use Rattle.std.specs.Prelude.{◌≡◌, ◌<◌, All, AllPairs, IfOk, IsTrue};
ghost use Rattle.mk_model.specs.Edges.{IsEdgeBefore};
ghost use Rattle.mk_model.specs.Molecules.{edges, IsElement};
ghost use Rattle.mk_model.specs.Tests.{IsBondInRange, IsKindInRange, IsListOfElements, IsTestInRange};
ghost use Rattle.mk_marks.specs.Bare.{bare_bonds};

use crate::checks::is_graph;
use mk_model::{
    Atom, AtomTest, Edge, Graph, GraphAtom, GraphBond, Kind, Mol, Neighbours, edges_of_graph,
};
use mk_rings::{marked_bonds, marked_graph};
use std::alloc::Global;
use std::test::Fail;

/// Builds a molecule, all of whose atoms are written, and finds the marks of its bonds.
pub fn mol_of(alloc: Global, atoms: Vec<Atom>, drawn: &[Edge]) -> Result<Mol, Fail>
    ensures atoms { IfOk result (λ mol. mol.atoms ≡ atoms.items) }
    ensures bonds { IfOk result (λ mol. edges mol.bonds ≡ drawn.now) }
{
    if atoms.len() > 512 || !have_elements(&atoms) {
        return Err(Fail::from("a molecule's atoms"));
    }
    let count = atoms.len() as u32;
    if drawn.len() > 9999 || !is_graph(count, drawn) {
        return Err(Fail::from("a molecule's bonds"));
    }
    let near = Neighbours::of(alloc, count, drawn)?;
    let bonds = marked_bonds(alloc, &near, count, drawn)?;
    Ok(Mol::over(count, atoms, bonds, near))
}

/// Builds a graph. Each bond has its lower end first, and the bonds are in order. Their marks are
/// found anew.
pub fn graph_of(alloc: Global, atoms: Vec<GraphAtom>, bonds: Vec<GraphBond>) -> Result<Graph, Fail>
    ensures atoms { IfOk result (λ graph. graph.atoms ≡ atoms.items) }
    ensures bonds { IfOk result (λ graph. bare_bonds graph.bonds ≡ bare_bonds bonds.items) }
{
    if atoms.len() > 512 || !have_tests(&atoms) {
        return Err(Fail::from("a graph's atoms"));
    }
    if !have_bond_tests(&bonds) {
        return Err(Fail::from("the types of a graph's bonds"));
    }
    let drawn = edges_of_graph(alloc, &bonds)?;
    if !is_graph(atoms.len() as u32, &drawn) {
        return Err(Fail::from("a graph's bonds"));
    }
    if !are_ordered(&drawn) {
        return Err(Fail::from("the order of a graph's bonds"));
    }
    Ok(marked_graph(alloc, atoms, bonds)?)
}

// Each bond has its lower end first, and stands before those behind it.
fn are_ordered(edges: &[Edge]) -> bool
    ensures lower_first { IsTrue result → All (λ edge. edge.first < edge.second) edges.now }
    ensures order { IsTrue result → AllPairs IsEdgeBefore edges.now }
{
    have_lower_first(edges) && are_in_order(edges)
}

fn have_lower_first(edges: &[Edge]) -> bool
    ensures { IsTrue result → All (λ edge. edge.first < edge.second) edges.now }
{
    edges.iter().all(|edge| edge.first < edge.second)
}

fn are_in_order(edges: &[Edge]) -> bool
    ensures { IsTrue result → AllPairs IsEdgeBefore edges.now }
{
    for b in 0..edges.len() {
        for c in 0..b {
            if !edges[c].is_before(edges[b]) {
                return false;
            }
        }
    }
    true
}

fn have_elements(atoms: &[Atom]) -> bool
    ensures { IsTrue result → All (λ atom. IsElement atom.element) atoms.now }
{
    atoms
        .iter()
        .all(|atom| 1 <= atom.element && atom.element <= 118)
}

fn have_bond_tests(bonds: &[GraphBond]) -> bool
    ensures { IsTrue result → All (λ bond. IsBondInRange bond.kind bond.topology) bonds.now }
{
    for bond in bonds {
        if bond.kind < 1 || bond.kind > 8 {
            return false;
        }
        if bond.topology > 2 {
            return false;
        }
    }
    true
}

fn have_tests(atoms: &[GraphAtom]) -> bool
    ensures { IsTrue result → All (λ atom. IsTestInRange atom.test) atoms.now }
{
    for atom in atoms {
        if !is_test(&atom.test) {
            return false;
        }
    }
    true
}

fn is_test(test: &AtomTest) -> bool
    ensures { IsTrue result → IsTestInRange test.now }
{
    if !is_kind(&test.kind) {
        return false;
    }
    if test.charge < -15 || test.charge > 15 {
        return false;
    }
    if test.radical > 3 || test.hydrogens > 5 {
        return false;
    }
    if test.ring_bonds < -2 || test.ring_bonds > 4 || test.ring_bonds == 1 {
        return false;
    }
    -2 <= test.substitution && test.substitution <= 6
}

fn is_kind(kind: &Kind) -> bool
    ensures { IsTrue result → IsKindInRange kind.now }
{
    match kind {
        Kind::Element(z) => 1 <= *z && *z <= 118,
        Kind::OneOf(list) => is_list(list.as_slice()),
        Kind::NoneOf(list) => is_list(list.as_slice()),
        _ => true,
    }
}

fn is_list(list: &[u8]) -> bool
    ensures { IsTrue result → IsListOfElements list.now }
{
    if list.len() < 1 || list.len() > 16 {
        return false;
    }
    list.iter().all(|z| 1 <= *z && *z <= 118)
}
