// The bonds of the next atom to earlier ones.
ghost use Rattle.std.specs.Prelude.{◌≡◌, ◌<◌, ◌≤◌, ◌+◌, ◌-◌, ◌↔◌, false, All, Some, IfNone, IfSome, IsTrue, length, slice_get};
ghost use Rattle.mk_model.specs.Fitting.{LiesOn};
ghost use Rattle.mk_model.specs.Hits.{image};
ghost use Rattle.mk_walk.specs.EarlierBonds.{HasNoAnchor, IsAnchor, IsMetAt};

use mk_model::{Graph, Mol};
use mk_tests::bond_fits;

/// Tells whether each bond of the next atom to an earlier one lies on a bond.
pub fn are_bonds_met(graph: &Graph, mol: &Mol, first: &[u32], a: u32) -> bool
    requires short { length first.now < length graph.now.atoms }
    requires within { All (λ b. (1 ≤ b) × (b ≤ length mol.now.atoms)) first.now }
    requires least { 1 ≤ a }
    requires most { a ≤ length mol.now.atoms }
    ensures { IsTrue result ↔ All (λ bond. bond.second ≡ length first.now + 1 → LiesOn mol.now bond (image first.now bond.first) a) graph.now.bonds }
{
    for number in graph.bonds_at(next_number(graph, first)) {
        if !is_met_at(graph, mol, first, a, *number) {
            return false;
        }
    }
    true
}

fn is_met_at(graph: &Graph, mol: &Mol, first: &[u32], a: u32, number: u32) -> bool
    requires short { length first.now < length graph.now.atoms }
    requires within { All (λ b. (1 ≤ b) × (b ≤ length mol.now.atoms)) first.now }
    requires least { 1 ≤ a }
    requires most { a ≤ length mol.now.atoms }
    requires number_least { 1 ≤ number }
    requires number_most { number ≤ length graph.now.bonds }
    ensures { IsTrue result ↔ IsMetAt graph.now mol.now first.now a number }
{
    let bond = graph.bond(number);
    if bond.second as usize != first.len() + 1 {
        return true;
    }
    bond_fits(graph, number, mol, first[bond.first as usize - 1], a)
}

/// The atom on which an earlier neighbour of the next atom lies, where it has one.
pub fn anchor_of(graph: &Graph, first: &[u32]) -> Option<u32>
    requires short { length first.now < length graph.now.atoms }
    ensures some { IfSome result (IsAnchor graph.now first.now) }
    ensures none { IfNone result (HasNoAnchor graph.now first.now) }
{
    for number in graph.bonds_at(next_number(graph, first)) {
        let bond = graph.bond(*number);
        if bond.second as usize == first.len() + 1 {
            return Some(first[bond.first as usize - 1]);
        }
    }
    None
}

// The next atom of the graph.
fn next_number(graph: &Graph, first: &[u32]) -> u32
    requires { length first.now < length graph.now.atoms }
    ensures { result ≡ length first.now + 1 }
{
    let _few = graph.atom_count();
    first.len() as u32 + 1
}
