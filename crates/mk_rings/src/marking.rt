// Marks of ring bonds by a spanning forest.
ghost use Rattle.std.specs.Prelude.{◌≡◌, ◌≢◌, ◌≤◌, ◌<◌, ◌-◌, ◌↔◌, ◌⊎◌, ℕ, IfOk, IsTrue, length};
ghost use Rattle.mk_model.specs.Edges.{AreBetween, IsSimple, Joins, rows_of};
ghost use Rattle.mk_model.specs.Rings.{IsRingBond};
ghost use Rattle.mk_marks.specs.Marks.{IsMarked, Marks};
ghost use Rattle.mk_rings.specs.Forests.{HangsBy, IsForest, node};
ghost use Rattle.mk_rings.specs.Walks.{MarksWay};

use crate::forest::forest_of;
use crate::node::Node;
use mk_model::{Edge, Memory, Neighbours};
use std::alloc::Global;

/// Marks the ring bonds.
pub fn ring_bonds(alloc: Global, atoms: u32, bonds: &[Edge]) -> Result<Vec<bool>, Memory>
    requires { IsSimple atoms bonds.now }
    ensures { IfOk result (λ marks. Marks (IsRingBond bonds.now) bonds.now marks.items) }
{
    let near = neighbours_of(alloc, atoms, bonds)?;
    ring_bonds_over(alloc, &near, atoms, bonds)
}

/// Marks the ring bonds, where the neighbours are made already.
pub fn ring_bonds_over(
    alloc: Global,
    near: &Neighbours,
    atoms: u32,
    bonds: &[Edge],
) -> Result<Vec<bool>, Memory>
    requires simple { IsSimple atoms bonds.now }
    requires rows { near.now ≡ rows_of atoms bonds.now }
    ensures { IfOk result (λ marks. Marks (IsRingBond bonds.now) bonds.now marks.items) }
{
    let nodes = forest_of(alloc, near, atoms, bonds)?;
    let mut marks = vec![in alloc; false; bonds.len()]?;
    mark_rings(&nodes, bonds, &mut marks);
    Ok(marks)
}

/// Lists the bonds of each of the atoms. Numbers of bonds are of 32 bits: more bonds have no memory
/// here.
pub fn neighbours_of(alloc: Global, atoms: u32, bonds: &[Edge]) -> Result<Neighbours, Memory>
    requires { AreBetween atoms bonds.now }
    ensures { IfOk result (λ near. near ≡ rows_of atoms bonds.now) }
{
    if bonds.len() > u32::MAX as usize {
        return Err(Memory);
    }
    Neighbours::of(alloc, atoms, bonds)
}

// Marks each bond by which no atom hangs, and the bonds of the forest between its ends.
fn mark_rings(nodes: &[Node], bonds: &[Edge], marks: &mut [bool])
    requires ends { AreBetween (length nodes.now - 1) bonds.now }
    requires forest { IsForest (length nodes.now - 1) bonds.now nodes.now }
    requires size { length marks.old ≡ length bonds.now }
    requires none { (b : ℕ) → ¬ (IsMarked marks.old b) }
    ensures { Marks (IsRingBond bonds.now) bonds.now marks.new }
{
    for b in 0..bonds.len() {
        let edge = bonds[b];
        if hangs_by(nodes, edge.first, b) {
            continue;
        }
        if hangs_by(nodes, edge.second, b) {
            continue;
        }
        marks[b] = true;
        mark_way(nodes, bonds, b, marks);
    }
}

// Tells whether the atom hangs by the bond.
fn hangs_by(nodes: &[Node], x: u32, b: usize) -> bool
    requires { x < length nodes.now }
    ensures { IsTrue result ↔ HangsBy nodes.now x b }
{
    let here = nodes[x as usize];
    here.depth > 0 && here.via as usize == b
}

// Marks the bonds of the forest between the ends of a bond: the deeper of them goes up until they
// meet.
fn mark_way(nodes: &[Node], bonds: &[Edge], b: usize, marks: &mut [bool])
    requires bond { b < length bonds.now }
    requires ends { AreBetween (length nodes.now - 1) bonds.now }
    requires forest { IsForest (length nodes.now - 1) bonds.now nodes.now }
    requires size { length marks.old ≡ length bonds.now }
    ensures { (u v : ℕ) → Joins bonds.now b u v → MarksWay nodes.now u v marks.old marks.new }
{
    let edge = bonds[b];
    let mut a = edge.first;
    let mut c = edge.second;
    while a != c {
        let (deep, other) = deeper_first(nodes, a, c);
        let here = nodes[deep as usize];
        marks[here.via as usize] = true;
        a = here.parent;
        c = other;
    }
}

// Two atoms with the deeper one first.
fn deeper_first(nodes: &[Node], a: u32, c: u32) -> (u32, u32)
    requires { (a < length nodes.now) × (c < length nodes.now) }
    ensures order { (node nodes.now result.1).depth ≤ (node nodes.now result.0).depth }
    ensures same { ((result.0 ≡ a) × (result.1 ≡ c)) ⊎ ((result.0 ≡ c) × (result.1 ≡ a)) }
{
    if nodes[c as usize].depth <= nodes[a as usize].depth {
        return (a, c);
    }
    (c, a)
}
