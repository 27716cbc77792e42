// The marks of what is drawn, and the text of a sketch.
use mk_fixtures::{
    asked_atoms, asked_bonds, bonds_of_sketch, graph_of, is_graph, mol_of_sketch, molfile_of_sketch,
};
use mk_model::{Edge, Graph, GraphBond, Mol, Neighbours};
use mk_rings::{aromatic_bonds, ring_bonds};
use std::alloc::Global;
use std::test::Fail;

// Each kind of word, and the bytes that it stands for.
const SKETCH: &str = "N(c3) R#(h1)(v15) | 1=2/2 {M  RGP  1   2   1}{M  LOG  1   1   0   0 >0}";

const TEXT: &[u8] = b"\n\n\n  2  1  0  0  0  0            999 V2000
    0.0000    0.0000    0.0000 N   0  3  0  0  0  0
    0.0000    0.0000    0.0000 R#  0  0  0  1  0 15
  1  2  2  0  0  2
M  RGP  1   2   1
M  LOG  1   1   0   0 >0
M  END
";

#[test]
fn writes_a_sketch(rt: HostRuntime) -> Result<(), Fail> {
    let text = molfile_of_sketch(rt.alloc(), SKETCH)?;
    assert!(rt; text.as_slice() == TEXT);
    Ok(())
}

// The name of the row, the sketch, and the marks of its ring bonds and of its aromatic bonds. Other
// molecules are compared by checks/plain.
static ROWS: [(&str, &str, &str, &str); 3] = [
    (
        "benzene with a tail",
        "C C C C C C C | 1=2 2-3 3=4 4-5 5=6 6-1 1-7",
        "1111110",
        "1111110",
    ),
    ("a lone bond of type 4", "C C C | 1:2 2-3", "00", "10"),
    ("no bond", "C C | ", "", ""),
];

#[test]
fn marks(rt: HostRuntime) -> Result<(), Fail> {
    for (name, sketch, ring, aromatic) in ROWS.iter() {
        assert!(rt; has_these(rt.alloc(), sketch, ring, aromatic)?, "{name}");
    }
    Ok(())
}

// The bonds have these marks, by themselves, in a molecule and in a graph.
fn has_these(alloc: Global, sketch: &str, ring: &str, aromatic: &str) -> Result<bool, Fail> {
    let mol = mol_of_sketch(alloc, sketch)?;
    let bonds = bonds_of_sketch(alloc, sketch)?;
    let (rings, aromatics) = marks_of(alloc, mol.atom_count(), &bonds)?;
    let graph = graph_of(alloc, asked_atoms(alloc, sketch)?, marked(alloc, sketch)?)?;
    Ok(
        are(&rings, ring)
            && are(&aromatics, aromatic)
            && has_marks(&mol, &rings, &aromatics)
            && agrees(&graph, &mol),
    )
}

// The bonds of a graph, all of which have both marks so far.
fn marked(alloc: Global, sketch: &str) -> Result<Vec<GraphBond>, Fail> {
    let mut bonds = asked_bonds(alloc, sketch)?;
    for bond in &mut bonds {
        bond.ring = true;
        bond.aromatic = true;
    }
    Ok(bonds)
}

// The marks of ring bonds and those of aromatic bonds.
fn marks_of(alloc: Global, atoms: u32, bonds: &[Edge]) -> Result<(Vec<bool>, Vec<bool>), Fail> {
    if bonds.len() > 9999 || !is_graph(atoms, bonds) {
        return Err(Fail::from("the bonds of a row"));
    }
    let rings = ring_bonds(alloc, atoms, bonds)?;
    let aromatics = aromatic_bonds(alloc, atoms, bonds)?;
    Ok((rings, aromatics))
}

// A square with one atom more on its third corner, and an atom alone.
#[test]
fn lists_the_bonds_of_each_atom(rt: HostRuntime) -> Result<(), Fail> {
    let bonds = bonds_of_sketch(rt.alloc(), "C C C C C C | 1-2 3-2 3-4 1-4 3-5")?;
    if bonds.len() != 5 || !is_graph(6, &bonds) {
        return Err(Fail::from("the square's bonds"));
    }
    let rows = Neighbours::of(rt.alloc(), 6, &bonds)?;
    let want: [&[u32]; 6] = [&[1, 4], &[1, 2], &[2, 3, 5], &[3, 4], &[5], &[]];
    for (n, numbers) in want.iter().enumerate() {
        assert_eq!(rt; rows.at(n as u32 + 1), *numbers, "{n}");
    }
    Ok(())
}

fn has_marks(mol: &Mol, rings: &[bool], aromatics: &[bool]) -> bool {
    for ((bond, ring), aromatic) in mol.bonds().iter().zip(rings).zip(aromatics) {
        if bond.ring != *ring || bond.aromatic != *aromatic {
            return false;
        }
    }
    mol.bonds().len() == rings.len()
}

// The marks of the graph's bonds are those of the molecule's.
fn agrees(graph: &Graph, mol: &Mol) -> bool {
    for bond in graph.bonds() {
        if bond.first < 1 || bond.second < 1 {
            return false;
        }
        if bond.first > mol.atom_count() || bond.second > mol.atom_count() {
            return false;
        }
        match mol.bond_between(bond.first, bond.second) {
            Some(other) if other.ring == bond.ring && other.aromatic == bond.aromatic => {}
            _ => return false,
        }
    }
    graph.bonds().len() == mol.bonds().len()
}

// The marks are those of a text of 0 and 1.
fn are(marks: &[bool], text: &str) -> bool {
    let want = text.as_bytes();
    if marks.len() != want.len() {
        return false;
    }
    for b in 0..marks.len() {
        if marks[b] != (want[b] == b'1') {
            return false;
        }
    }
    true
}
