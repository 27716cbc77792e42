// Bonds as edges, as far as their ends are atoms.
ghost use Rattle.std.specs.Prelude.{◌≡◌, ◌≢◌, ◌↔◌, IfOk, IsTrue, MatchOption};
ghost use Rattle.mk_model.specs.Edges.{IsBetween};
ghost use Rattle.mk_demands.specs.Bonds.{raw_edge, HasTwoEnds, IsEdgeFront};
ghost use Rattle.mk_demands.specs.BondSearch.{IsEdge};
ghost use Rattle.mk_demands.specs.Numbers.{IsAtom};

use crate::numbers::{byte, is_atom, natural};
use mk_model::{Edge, Memory};
use mk_tables::RawBond;
use std::alloc::Global;

/// The edges of the bonds before the first whose ends aren't two atoms.
pub fn edges_between(alloc: Global, atoms: u32, bonds: &[RawBond]) -> Result<Vec<Edge>, Memory>
    ensures { IfOk result (λ edges. IsEdgeFront atoms bonds.now edges.items) }
{
    let mut edges = Vec::with_capacity(alloc, bonds.len())?;
    for bond in bonds {
        match edge_between(atoms, *bond) {
            Some(edge) => edges.push(edge)?,
            None => return Ok(edges),
        }
    }
    Ok(edges)
}

// The edge of a bond whose ends are two atoms.
fn edge_between(atoms: u32, bond: RawBond) -> Option<Edge>
    ensures { MatchOption result (¬ (HasTwoEnds atoms bond)) (IsEdge atoms bond) }
{
    if !has_two_ends(atoms, &bond) {
        return None;
    }
    Some(raw_edge(bond))
}

/// Whether the ends of the bond are two of so many atoms.
pub fn has_two_ends(atoms: u32, bond: &RawBond) -> bool
    ensures { IsTrue result ↔ HasTwoEnds atoms bond.now }
{
    if !has_first(atoms, bond) {
        return false;
    }
    if !has_second(atoms, bond) {
        return false;
    }
    differs(bond)
}

fn has_first(atoms: u32, bond: &RawBond) -> bool
    ensures { IsTrue result ↔ IsAtom atoms bond.now.first }
{
    is_atom(atoms, bond.first)
}

fn has_second(atoms: u32, bond: &RawBond) -> bool
    ensures { IsTrue result ↔ IsAtom atoms bond.now.second }
{
    is_atom(atoms, bond.second)
}

fn differs(bond: &RawBond) -> bool
    ensures { IsTrue result ↔ bond.now.first ≢ bond.now.second }
{
    bond.first != bond.second
}

fn raw_edge(bond: RawBond) -> Edge
    ensures { result ≡ raw_edge bond }
{
    Edge {
        first: natural(bond.first),
        second: natural(bond.second),
        kind: byte(bond.kind),
    }
}
