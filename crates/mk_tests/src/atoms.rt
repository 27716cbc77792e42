// Whether an atom of a graph accepts an atom of a molecule.
ghost use Rattle.std.specs.Prelude.{◌≡◌, ◌≤◌, ◌&&◌, ◌↔◌, IsTrue, length};
ghost use Rattle.mk_model.specs.Fitting.{drawn_hydrogens, drawn_others, drawn_rings, FitsAtom, hydrogens_at, is_unsaturated_at, others_at, rings_at};
ghost use Rattle.mk_model.specs.Tests.{accepts, charge_fits, hydrogens_fit, radical_fits, ring_bonds_fit, substitution_fits, unsaturation_fits};

use crate::columns::{
    charge_meets, hydrogens_meet, lies_within, radical_meets, ring_bonds_meet, substitution_meets,
};
use crate::counts::{
    count_drawn_hydrogens, count_drawn_others, count_drawn_rings, count_hydrogens, count_others,
    count_rings, has_unsaturated,
};
use crate::kinds::{accepts_element, atom_numbered};
use mk_model::{Atom, AtomTest, Graph, GraphAtom, Mol};

/// Tells whether atom x of the graph accepts atom m of the molecule.
pub fn atom_fits(graph: &Graph, x: u32, mol: &Mol, m: u32) -> bool
    requires drawn_least { 1 ≤ x }
    requires drawn_most { x ≤ length graph.now.atoms }
    requires atom_least { 1 ≤ m }
    requires atom_most { m ≤ length mol.now.atoms }
    ensures { IsTrue result ↔ FitsAtom graph.now mol.now x m }
{
    let asked = atom_numbered(graph.atoms(), x);
    let atom = mol.atom(m);
    meets_alone(&asked.test, atom) && meets_around(asked, graph, x, mol, m)
}

// The kind, the charge and the radical are met.
fn meets_alone(test: &AtomTest, atom: Atom) -> bool
    ensures { result ≡ (accepts test.now.kind atom.element && (charge_fits test.now.charge atom.charge && radical_fits test.now.radical atom.radical)) }
{
    accepts_element(&test.kind, atom.element)
        && charge_meets(test.charge, atom.charge)
        && radical_meets(test.radical, atom.radical)
}

// What is bonded to the atom meets the columns that ask for it.
fn meets_around(asked: &GraphAtom, graph: &Graph, x: u32, mol: &Mol, m: u32) -> bool
    requires drawn_least { 1 ≤ x }
    requires drawn_most { x ≤ length graph.now.atoms }
    requires atom_least { 1 ≤ m }
    requires atom_most { m ≤ length mol.now.atoms }
    ensures { result ≡ (hydrogens_fit asked.now.test.hydrogens (drawn_hydrogens graph.now x) asked.now.free (hydrogens_at mol.now m)
        && (ring_bonds_fit asked.now.test.ring_bonds (drawn_rings graph.now x) (rings_at mol.now m)
        && (substitution_fits asked.now.test.substitution (drawn_others graph.now x) asked.now.free (others_at mol.now m)
        && unsaturation_fits asked.now.test.unsaturated (is_unsaturated_at mol.now m)))) }
{
    let test = &asked.test;
    has_hydrogens(test.hydrogens, asked.free, graph, x, mol, m)
        && has_ring_bonds(test.ring_bonds, graph, x, mol, m)
        && has_substitution(test.substitution, asked.free, graph, x, mol, m)
        && is_unsaturated_enough(test.unsaturated, mol, m)
}

// The hydrogens of atom m are as many as the column asks for.
fn has_hydrogens(column: u8, free: u32, graph: &Graph, x: u32, mol: &Mol, m: u32) -> bool
    requires drawn_least { 1 ≤ x }
    requires drawn_most { x ≤ length graph.now.atoms }
    requires atom_least { 1 ≤ m }
    requires atom_most { m ≤ length mol.now.atoms }
    ensures { result ≡ hydrogens_fit column (drawn_hydrogens graph.now x) free (hydrogens_at mol.now m) }
{
    if column == 0 {
        return true;
    }
    hydrogens_meet(
        column,
        count_drawn_hydrogens(graph, x),
        free,
        count_hydrogens(mol, m),
    )
}

// The ring bonds of atom m are as many as the column asks for.
fn has_ring_bonds(column: i8, graph: &Graph, x: u32, mol: &Mol, m: u32) -> bool
    requires drawn_least { 1 ≤ x }
    requires drawn_most { x ≤ length graph.now.atoms }
    requires atom_least { 1 ≤ m }
    requires atom_most { m ≤ length mol.now.atoms }
    ensures { result ≡ ring_bonds_fit column (drawn_rings graph.now x) (rings_at mol.now m) }
{
    if column == 0 {
        return true;
    }
    let count = count_rings(mol, m);
    if column == -1 {
        return count == 0;
    }
    if column < 0 {
        return count == count_drawn_rings(graph, x);
    }
    ring_bonds_meet(column, count)
}

// The neighbours of atom m that are no hydrogens are as many as the column asks for.
fn has_substitution(column: i8, free: u32, graph: &Graph, x: u32, mol: &Mol, m: u32) -> bool
    requires drawn_least { 1 ≤ x }
    requires drawn_most { x ≤ length graph.now.atoms }
    requires atom_least { 1 ≤ m }
    requires atom_most { m ≤ length mol.now.atoms }
    ensures { result ≡ substitution_fits column (drawn_others graph.now x) free (others_at mol.now m) }
{
    if column == 0 {
        return true;
    }
    let count = count_others(mol, m);
    if column == -1 {
        return count == 0;
    }
    if column < 0 {
        return lies_within(count_drawn_others(graph, x), free, count);
    }
    substitution_meets(column, count)
}

// Where it is asked for, some bond of atom m is unsaturated.
fn is_unsaturated_enough(asked: bool, mol: &Mol, m: u32) -> bool
    requires atom_least { 1 ≤ m }
    requires atom_most { m ≤ length mol.now.atoms }
    ensures { result ≡ unsaturation_fits asked (is_unsaturated_at mol.now m) }
{
    !asked || has_unsaturated(mol, m)
}
