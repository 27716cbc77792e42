// The graph of an open code.
ghost use Rattle.std.specs.Prelude.{◌≡◌, ℤ, IfOk, OnOk, map};
ghost use Rattle.mk_pieces.specs.Fragments.{bare};
ghost use Rattle.mk_expand.specs.OpenCodes.{IsOpenCode};
ghost use Rattle.mk_expand.specs.OpenGraphs.{IsOpenGraph, shared_atom, shared_bond, shared_kind, shared_rings};

use crate::choosing::opened_by;
use mk_model::{Graph, GraphAtom, GraphBond, Memory, Query, QueryBond, put_in_order};
use mk_rings::marked_graph;
use std::alloc::Global;

/// The graph of an open code of the root: what the expansions of all codes that complete it have in
/// common.
pub fn open_graph(alloc: Global, query: &Query, open: &[u32]) -> Result<Graph, Memory>
    requires { IsOpenCode query.now 0 open.now }
    ensures { IfOk result (IsOpenGraph query.now open.now) }
{
    // The reader's clause says what every query keeps.
    let _kept = query.templates();
    let (part, read) = opened_by(alloc, query, 0, open, 0)?;
    let stays = read.one_ended;
    let (atoms, bonds) = part.into_lists();
    let shared = shared_atoms(alloc, stays, atoms)?;
    let mut drawn = shared_bonds(alloc, stays, &bonds)?;
    put_in_order(&mut drawn);
    let graph = marked_graph(alloc, shared, drawn)?;
    // And what every graph keeps.
    let _count = graph.atom_count();
    Ok(graph)
}

// Each atom with the tests that stay.
fn shared_atoms(alloc: Global, stays: bool, atoms: Vec<GraphAtom>) -> Result<Vec<GraphAtom>, Memory>
    ensures { IfOk result (λ out. out.items ≡ map (shared_atom stays) atoms.items) }
{
    atoms
        .into_iter()
        .map(|atom| shared_atom(stays, atom))
        .collect(alloc)
}

fn shared_atom(stays: bool, atom: GraphAtom) -> GraphAtom
    ensures { result ≡ shared_atom stays atom }
{
    let GraphAtom { test, free } = atom;
    let rings = shared_rings(stays, test.ring_bonds);
    let mut test = test;
    test.ring_bonds = rings;
    GraphAtom { test, free }
}

// Ring bonds as drawn, -2, become nothing that is asked for where they don't stay.
fn shared_rings(stays: bool, asked: i8) -> i8
    ensures { result ≡ shared_rings stays asked }
{
    if stays {
        return asked;
    }
    if asked < -1 {
        return 0;
    }
    asked
}

// The bonds as those of a graph, without marks, each with the type that stays.
fn shared_bonds(alloc: Global, stays: bool, bonds: &[QueryBond]) -> Result<Vec<GraphBond>, Memory>
    ensures { IfOk result (λ drawn. drawn.items ≡ map (λ bond. bare (shared_bond stays bond)) bonds.now) }
{
    bonds
        .iter()
        .map(|bond| shared_bare(stays, *bond))
        .collect(alloc)
}

fn shared_bare(stays: bool, bond: QueryBond) -> GraphBond
    ensures { result ≡ bare (shared_bond stays bond) }
{
    GraphBond {
        first: bond.first,
        second: bond.second,
        kind: shared_kind(stays, bond.kind),
        topology: bond.topology,
        ring: false,
        aromatic: false,
    }
}

// The type as it is asked, or one that is met by aromatic bonds too.
fn shared_kind(stays: bool, kind: u8) -> u8
    ensures { result ≡ shared_kind stays kind }
{
    if stays {
        return kind;
    }
    match kind {
        1 => 6,
        2 => 7,
        _ => kind,
    }
}
