// Lists of edges, and the bond between two atoms among some.
ghost use Rattle.std.specs.Prelude.{◌≡◌, ◌≤◌, ◌<◌, ◌-◌, ℕ, All, IfOk, MatchOption, length, slice_index, slice_index_or};
ghost use Rattle.mk_model.specs.Edges.{HasEnds};
ghost use Rattle.mk_model.specs.Graphs.{graph_edges};
ghost use Rattle.mk_model.specs.Molecules.{BondAmong, edge_of, edges};

use crate::{Edge, GraphBond, MolBond};
use mk_text::Memory;
use std::alloc::Global;

/// The bonds without their marks.
pub fn edges_of(alloc: Global, bonds: &[MolBond]) -> Result<Vec<Edge>, Memory>
    ensures { IfOk result (λ list. list.items ≡ edges bonds.now) }
{
    bonds.iter().map(|bond| bond.edge()).collect(alloc)
}

/// The bonds of a graph without their tests and marks.
pub fn edges_of_graph(alloc: Global, bonds: &[GraphBond]) -> Result<Vec<Edge>, Memory>
    ensures { IfOk result (λ list. list.items ≡ graph_edges bonds.now) }
{
    bonds.iter().map(|bond| bond.edge()).collect(alloc)
}

/// The first of the numbered bonds that joins a and b.
pub fn find_bond(bonds: &[MolBond], numbers: &[u32], a: u32, b: u32) -> Option<MolBond>
    requires { All (λ number. (1 ≤ number) × (number ≤ length bonds.now)) numbers.now }
    ensures { BondAmong bonds.now numbers.now a b result }
{
    for number in numbers {
        let bond = bonds[*number as usize - 1];
        if bond.edge().has_ends(a, b) {
            return Some(bond);
        }
    }
    None
}
