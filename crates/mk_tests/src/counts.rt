// How many bonds of an atom pass a test, in a molecule and in a graph.
ghost use Rattle.std.specs.Prelude.{◌≡◌, ◌≤◌, ℕ, Bool, not, All, count_by, length};
ghost use Rattle.std.specs.List.{list_any};
ghost use Rattle.mk_model.specs.Edges.{other_end};
ghost use Rattle.mk_model.specs.Fitting.{drawn_hydrogens, drawn_others, drawn_rings, hydrogens_at, is_drawn_hydrogen, is_hydrogen, is_unsaturated_at, others_at, passes_at, rings_at};
ghost use Rattle.mk_model.specs.Graphs.{graph_edge};
ghost use Rattle.mk_model.specs.Molecules.{edge_of};
ghost use Rattle.mk_model.specs.Tests.{is_unsaturated};

use crate::kinds::{atom_numbered, is_drawn_as_hydrogen};
use mk_model::{Graph, Mol, MolBond};

/// The bonds of atom m that lead to a hydrogen.
pub fn count_hydrogens(mol: &Mol, m: u32) -> usize
    requires least { 1 ≤ m }
    requires most { m ≤ length mol.now.atoms }
    ensures { result ≡ hydrogens_at mol.now m }
{
    count_passing(mol.bonds_at(m), |number| leads_to_hydrogen(mol, m, number))
}

/// The bonds of atom m that lead to another atom.
pub fn count_others(mol: &Mol, m: u32) -> usize
    requires least { 1 ≤ m }
    requires most { m ≤ length mol.now.atoms }
    ensures { result ≡ others_at mol.now m }
{
    count_passing(mol.bonds_at(m), |number| leads_to_other(mol, m, number))
}

/// The ring bonds of atom m.
pub fn count_rings(mol: &Mol, m: u32) -> usize
    requires least { 1 ≤ m }
    requires most { m ≤ length mol.now.atoms }
    ensures { result ≡ rings_at mol.now m }
{
    count_passing(mol.bonds_at(m), |number| mol.bond(number).ring)
}

/// Some bond of atom m is unsaturated.
pub fn has_unsaturated(mol: &Mol, m: u32) -> bool
    requires least { 1 ≤ m }
    requires most { m ≤ length mol.now.atoms }
    ensures { result ≡ is_unsaturated_at mol.now m }
{
    any_passing(mol.bonds_at(m), |number| {
        is_unsaturated_bond(mol.bond(number))
    })
}

/// The bonds of atom x that lead to a drawn hydrogen.
pub fn count_drawn_hydrogens(graph: &Graph, x: u32) -> usize
    requires least { 1 ≤ x }
    requires most { x ≤ length graph.now.atoms }
    ensures { result ≡ drawn_hydrogens graph.now x }
{
    count_passing(
        graph.bonds_at(x),
        |number| leads_to_drawn_hydrogen(graph, x, number),
    )
}

/// The bonds of atom x that lead to another atom.
pub fn count_drawn_others(graph: &Graph, x: u32) -> usize
    requires least { 1 ≤ x }
    requires most { x ≤ length graph.now.atoms }
    ensures { result ≡ drawn_others graph.now x }
{
    count_passing(
        graph.bonds_at(x),
        |number| leads_to_drawn_other(graph, x, number),
    )
}

/// The ring bonds of atom x.
pub fn count_drawn_rings(graph: &Graph, x: u32) -> usize
    requires least { 1 ≤ x }
    requires most { x ≤ length graph.now.atoms }
    ensures { result ≡ drawn_rings graph.now x }
{
    count_passing(graph.bonds_at(x), |number| graph.bond(number).ring)
}

// How many of the numbers pass.
fn count_passing<F: Fn(u32) -> bool>(numbers: &[u32], passes: F) -> usize
    requires { All (F.pre passes) numbers.now }
    ensures { (test : ℕ → Bool) → ((number : ℕ) (yes : Bool) → F.post passes number yes → yes ≡ test number) → result ≡ count_by test numbers.now }
{
    let mut count = 0;
    for number in numbers {
        if passes(*number) {
            count += 1;
        }
    }
    count
}

// Some of the numbers passes.
fn any_passing<F: Fn(u32) -> bool>(numbers: &[u32], passes: F) -> bool
    requires { All (F.pre passes) numbers.now }
    ensures { (test : ℕ → Bool) → ((number : ℕ) (yes : Bool) → F.post passes number yes → yes ≡ test number) → result ≡ list_any test numbers.now }
{
    for number in numbers {
        if passes(*number) {
            return true;
        }
    }
    false
}

// The bond of this number leads from atom m to a hydrogen.
fn leads_to_hydrogen(mol: &Mol, m: u32, number: u32) -> bool
    requires least { 1 ≤ number }
    requires most { number ≤ length mol.now.bonds }
    ensures { result ≡ passes_at (λ bond. is_hydrogen mol.now.atoms (other_end m (edge_of bond))) mol.now.bonds number }
{
    let end = mol.bond(number).edge().other_end(m);
    mol.atom(end).element == 1
}

// The bond of this number leads from atom m to another atom.
fn leads_to_other(mol: &Mol, m: u32, number: u32) -> bool
    requires least { 1 ≤ number }
    requires most { number ≤ length mol.now.bonds }
    ensures { result ≡ passes_at (λ bond. not (is_hydrogen mol.now.atoms (other_end m (edge_of bond)))) mol.now.bonds number }
{
    !leads_to_hydrogen(mol, m, number)
}

// The bond of this number in a graph leads from atom x to a drawn hydrogen.
fn leads_to_drawn_hydrogen(graph: &Graph, x: u32, number: u32) -> bool
    requires least { 1 ≤ number }
    requires most { number ≤ length graph.now.bonds }
    ensures { result ≡ passes_at (λ bond. is_drawn_hydrogen graph.now.atoms (other_end x (graph_edge bond))) graph.now.bonds number }
{
    let end = graph.bond(number).edge().other_end(x);
    is_drawn_as_hydrogen(&atom_numbered(graph.atoms(), end).test.kind)
}

// The bond of this number in a graph leads from atom x to another atom.
fn leads_to_drawn_other(graph: &Graph, x: u32, number: u32) -> bool
    requires least { 1 ≤ number }
    requires most { number ≤ length graph.now.bonds }
    ensures { result ≡ passes_at (λ bond. not (is_drawn_hydrogen graph.now.atoms (other_end x (graph_edge bond)))) graph.now.bonds number }
{
    !leads_to_drawn_hydrogen(graph, x, number)
}

// The bond is of type 2, 3 or 4, or in the aromatic set.
fn is_unsaturated_bond(bond: MolBond) -> bool
    ensures { result ≡ is_unsaturated bond }
{
    bond.aromatic || bond.kind == 2 || bond.kind == 3 || bond.kind == 4
}
