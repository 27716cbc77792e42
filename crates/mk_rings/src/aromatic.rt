// The aromatic set, by rounds until a whole round adds nothing.
ghost use Rattle.std.specs.Prelude.{◌≡◌, ◌<◌, ◌+◌, ◌↔◌, ℕ, IfOk, length};
ghost use Rattle.mk_model.specs.Edges.{AreBetween, HasKind, IsSimple, rows_of};
ghost use Rattle.mk_model.specs.Aromatic.{IsAromatic};
ghost use Rattle.mk_model.specs.Rings.{IsRingBond};
ghost use Rattle.mk_marks.specs.Marks.{IsMarked, Marks};
ghost use Rattle.mk_rings.specs.Rounds.{AllBelow};
ghost use Rattle.mk_rings.specs.Bridges.{AreWithoutBridges, label_if};

use crate::marking::{neighbours_of, ring_bonds_over};
use crate::rounds::mark_round;
use crate::spreading::spread;
use mk_model::{Edge, Memory, Neighbours};
use std::alloc::Global;

/// Marks the bonds of the aromatic set.
pub fn aromatic_bonds(alloc: Global, atoms: u32, bonds: &[Edge]) -> Result<Vec<bool>, Memory>
    requires { IsSimple atoms bonds.now }
    ensures { IfOk result (λ marks. Marks (IsAromatic bonds.now) bonds.now marks.items) }
{
    let near = neighbours_of(alloc, atoms, bonds)?;
    let rings = ring_bonds_over(alloc, &near, atoms, bonds)?;
    aromatic_bonds_over(alloc, &near, atoms, bonds, &rings)
}

/// Marks the bonds of the aromatic set, where the neighbours are made and the ring bonds found
/// already.
pub fn aromatic_bonds_over(
    alloc: Global,
    near: &Neighbours,
    atoms: u32,
    bonds: &[Edge],
    rings: &[bool],
) -> Result<Vec<bool>, Memory>
    requires simple { IsSimple atoms bonds.now }
    requires rows { near.now ≡ rows_of atoms bonds.now }
    requires rings { Marks (IsRingBond bonds.now) bonds.now rings.now }
    ensures { IfOk result (λ marks. Marks (IsAromatic bonds.now) bonds.now marks.items) }
{
    let ring_edges = without_bridges(alloc, bonds, rings)?;
    let mut marks = vec![in alloc; false; bonds.len()]?;
    let mut two = vec![in alloc; 0usize; atoms as usize + 1]?;
    let mut three = vec![in alloc; 0usize; atoms as usize + 1]?;
    let mut queue = vec![in alloc; 0usize; bonds.len()]?;
    mark_aromatic(
        near,
        atoms,
        &ring_edges,
        &mut marks,
        &mut two,
        &mut three,
        &mut queue,
    );
    Ok(marks)
}

// The bonds, where one that is no ring bond has no type that could take a label. Bonds of type 4
// keep theirs.
fn without_bridges(alloc: Global, bonds: &[Edge], rings: &[bool]) -> Result<Vec<Edge>, Memory>
    requires { length rings.now ≡ length bonds.now }
    ensures { IfOk result (λ edges. AreWithoutBridges bonds.now rings.now edges.items) }
{
    let mut edges = Vec::with_capacity(alloc, bonds.len())?;
    for b in 0..bonds.len() {
        edges.push(without_label(bonds[b], rings[b]))?;
    }
    Ok(edges)
}

fn without_label(edge: Edge, ring: bool) -> Edge
    ensures { result ≡ label_if ring edge }
{
    if ring || edge.kind == 4 {
        return edge;
    }
    Edge { kind: 0, ..edge }
}

// Marks the bonds of type 4, and then those that close a six-ring: as many as are found at small
// cost, and round by round what that leaves.
fn mark_aromatic(
    near: &Neighbours,
    atoms: u32,
    bonds: &[Edge],
    marks: &mut [bool],
    two: &mut [usize],
    three: &mut [usize],
    queue: &mut [usize],
)
    requires atoms { atoms ≡ length near.now }
    requires ends { AreBetween (length near.now) bonds.now }
    requires rows { near.now ≡ rows_of (length near.now) bonds.now }
    requires size { length marks.old ≡ length bonds.now }
    requires two { length two.old ≡ length near.now + 1 }
    requires three { length three.old ≡ length near.now + 1 }
    requires queue { AllBelow (length bonds.now) queue.old }
    ensures { Marks (IsAromatic bonds.now) bonds.now marks.new }
{
    mark_type_four(bonds, marks);
    spread(near, atoms, bonds, marks, queue, two);
    while mark_round(near, atoms, bonds, marks, two, three) {
        spread(near, atoms, bonds, marks, queue, two);
    }
}

// Marks the bonds of type 4, and no others.
fn mark_type_four(bonds: &[Edge], marks: &mut [bool])
    requires size { length marks.old ≡ length bonds.now }
    ensures { (b : ℕ) → b < length bonds.now → IsMarked marks.new b ↔ HasKind bonds.now b 4 }
{
    for b in 0..bonds.len() {
        marks[b] = bonds[b].kind == 4;
    }
}
