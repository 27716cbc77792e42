// The calls that take memory, each once.
ghost use Rattle.mk_model.specs.Tests.{IsTestInRange};

use mk_model::{
    Atom, AtomTest, Elements, Graph, GraphAtom, GraphBond, Interval, Kind, Mol, Range, put_in_order,
};
use std::test::Fail;

const CARBON: Atom = Atom {
    element: 6,
    charge: 0,
    radical: 0,
};

#[test]
fn keeps_a_molecule(rt: HostRuntime) -> Result<(), Fail> {
    let atoms = vec![in rt.alloc(); CARBON, CARBON]?;
    let mol = Mol::of(rt.alloc(), 1, atoms, Vec::new(rt.alloc()))?;
    let atoms = mol.atom_count() == 2 && mol.written() == 1 && mol.atom(2) == CARBON;
    assert!(rt; atoms && mol.bonds_at(2).is_empty() && mol.bond_between(1, 2).is_none());
    Ok(())
}

#[test]
fn keeps_a_graph(rt: HostRuntime) -> Result<(), Fail> {
    let atoms = vec![in rt.alloc(); any_atom(), any_atom()]?;
    let graph = Graph::of(rt.alloc(), atoms, Vec::new(rt.alloc()))?;
    let atoms = graph.atom_count() == 2 && graph.atoms().len() == 2;
    assert!(rt; atoms && graph.bonds().is_empty() && graph.bonds_at(2).is_empty());
    Ok(())
}

// Ends and types of bonds as they are given, and in order.
#[test]
fn puts_bonds_in_order(rt: HostRuntime) -> Result<(), Fail> {
    let given = [(3, 2, 1), (1, 4, 2), (2, 1, 4), (5, 1, 3), (2, 5, 8)];
    let want = [(1, 2, 4), (1, 4, 2), (1, 5, 3), (2, 3, 1), (2, 5, 8)];
    let mut bonds = Vec::new(rt.alloc());
    for (first, second, kind) in given {
        bonds.push(graph_bond(first, second, kind))?;
    }
    put_in_order(&mut bonds);
    let mut right = bonds.len() == want.len();
    for ((first, second, kind), bond) in want.iter().zip(&bonds) {
        right = right && *bond == graph_bond(*first, *second, *kind);
    }
    assert!(rt; right);
    Ok(())
}

// A list of more elements than are kept without memory of their own.
#[test]
fn copies_a_long_list(rt: HostRuntime) -> Result<(), Fail> {
    let mut list = Elements::new(rt.alloc());
    for z in 1..=20 {
        list.push(z)?;
    }
    let mut atom = any_atom();
    atom.test.kind = Kind::NoneOf(list);
    atom.test.hydrogens = 2;
    let copy = atom.test.copied(rt.alloc())?;
    let list = named(&copy.kind);
    assert!(rt; copy.hydrogens == 2 && list.len() == 20 && list.last() == Some(&20));
    Ok(())
}

// The elements that a kind takes none of.
fn named(kind: &Kind) -> &[u8] {
    match kind {
        Kind::NoneOf(list) => list.as_slice(),
        _ => &[],
    }
}

// More intervals than are kept without memory of their own.
#[test]
fn keeps_a_range(rt: HostRuntime) -> Result<(), Fail> {
    let mut range = Range::new(rt.alloc());
    for least in 1..=5 {
        range.push(Interval { least, most: 9 })?;
    }
    let last = range.as_slice().last() == Some(&Interval { least: 5, most: 9 });
    assert!(rt; last && range.as_slice().len() == 5);
    Ok(())
}

// An atom of a graph that takes any.
fn any_atom() -> GraphAtom
    ensures { IsTestInRange result.test }
{
    GraphAtom {
        test: AtomTest::of_kind(Kind::Anything),
        free: 0,
    }
}

fn graph_bond(first: u32, second: u32, kind: u8) -> GraphBond {
    GraphBond {
        first,
        second,
        kind,
        topology: 0,
        ring: false,
        aromatic: false,
    }
}
