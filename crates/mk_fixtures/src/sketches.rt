// Molecules and graphs that are drawn as texts. The shorthand is that of docs/TESTING.md, "Tables
// of tests".
use crate::building::{graph_of, mol_of};
use crate::words::{Parts, drawn_bond, parts_of};
use mk_elements::number_of;
use mk_model::{
    Atom, AtomTest, Edge, Elements, Graph, GraphAtom, GraphBond, Kind, Memory, Mol, put_in_order,
};
use std::alloc::Global;
use std::test::Fail;

/// The molecule of a sketch, all of whose atoms are elements without columns. Its bonds stand as
/// they are drawn.
pub fn mol_of_sketch(alloc: Global, sketch: &str) -> Result<Mol, Fail> {
    let mut atoms = Vec::new(alloc);
    for word in parts_without_lines(sketch)?.atoms.split_whitespace() {
        atoms.push(Atom {
            element: element_of(word)?,
            charge: 0,
            radical: 0,
        })?;
    }
    mol_of(alloc, atoms, &bonds_of_sketch(alloc, sketch)?)
}

/// The bonds of a molecule's sketch, as they are drawn.
pub fn bonds_of_sketch(alloc: Global, sketch: &str) -> Result<Vec<Edge>, Fail> {
    let mut bonds = Vec::new(alloc);
    for word in parts_without_lines(sketch)?.bonds.split_whitespace() {
        let bond = drawn_bond(word)?;
        if bond.topology != 0 {
            return Err(Fail::from("a topology in a molecule"));
        }
        bonds.push(bond.edge())?;
    }
    Ok(bonds)
}

/// The graph of a sketch: elements, `A`, `Q` and `*`, each alone asked for, and bonds with their
/// topologies, put in order.
pub fn graph_of_sketch(alloc: Global, sketch: &str) -> Result<Graph, Fail> {
    let atoms = asked_atoms(alloc, sketch)?;
    let bonds = asked_bonds(alloc, sketch)?;
    graph_of(alloc, atoms, bonds)
}

/// The atoms of a graph's sketch.
pub fn asked_atoms(alloc: Global, sketch: &str) -> Result<Vec<GraphAtom>, Fail> {
    let mut atoms = Vec::new(alloc);
    for word in parts_without_lines(sketch)?.atoms.split_whitespace() {
        atoms.push(GraphAtom {
            test: AtomTest::of_kind(kind_of(word)?),
            free: 0,
        })?;
    }
    Ok(atoms)
}

/// The bonds of a graph's sketch, put in order, without marks.
pub fn asked_bonds(alloc: Global, sketch: &str) -> Result<Vec<GraphBond>, Fail> {
    let mut bonds = Vec::new(alloc);
    for word in parts_without_lines(sketch)?.bonds.split_whitespace() {
        bonds.push(drawn_bond(word)?)?;
    }
    put_in_order(&mut bonds);
    Ok(bonds)
}

/// A list of elements.
pub fn elements_of(alloc: Global, elements: &[u8]) -> Result<Elements, Memory> {
    let mut list = Elements::new(alloc);
    for z in elements {
        list.push(*z)?;
    }
    Ok(list)
}

// Property lines have no place in a molecule or a graph.
fn parts_without_lines(sketch: &str) -> Result<Parts<'_>, Fail> {
    let parts = parts_of(sketch)?;
    if parts.lines.is_some() {
        return Err(Fail::from("property lines"));
    }
    Ok(parts)
}

fn kind_of(symbol: &str) -> Result<Kind, Fail> {
    match symbol {
        "A" => Ok(Kind::NotHydrogen),
        "Q" => Ok(Kind::Hetero),
        "*" => Ok(Kind::Anything),
        _ => Ok(Kind::Element(element_of(symbol)?)),
    }
}

// A symbol with columns behind it is that of no element.
fn element_of(symbol: &str) -> Result<u8, Fail> {
    match number_of(symbol.as_bytes()) {
        Some(element) => Ok(element),
        None => Err(Fail::from("an atom that is no element")),
    }
}
