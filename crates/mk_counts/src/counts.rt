// Counts that show at once that there is no hit.
ghost use Rattle.std.specs.Prelude.{◌≡◌, ◌≤◌, ℕ, IsTrue, count_by};
ghost use Rattle.mk_model.specs.Tests.{IsKindInRange};
ghost use Rattle.mk_counts.specs.Counts.{HasNoHit, asks_for, is_of};

use mk_model::{Atom, Graph, GraphAtom, Kind, Mol};

/// Tells that the graph asks for more atoms of an element than the molecule has.
pub fn has_too_few(graph: &Graph, mol: &Mol) -> bool
    ensures { IsTrue result → HasNoHit graph.now mol.now }
{
    let mut last = 0;
    for atom in graph.atoms() {
        let z = element_asked(atom);
        if z == last {
            continue;
        }
        if count_there(mol.atoms(), z) < count_asked(graph.atoms(), z) {
            return true;
        }
        last = z;
    }
    false
}

/// The element that an atom asks for, or 0 where it asks for no single one.
pub fn element_asked(atom: &GraphAtom) -> u8
    ensures { IsKindInRange atom.now.test.kind → result ≤ 118 }
{
    match &atom.test.kind {
        Kind::Element(z) => *z,
        _ => 0,
    }
}

/// How many atoms of the graph ask for this element.
pub fn count_asked(atoms: &[GraphAtom], z: u8) -> usize
    ensures { result ≡ count_by (asks_for z) atoms.now }
{
    let mut count = 0;
    for atom in atoms {
        if asks_for(atom, z) {
            count += 1;
        }
    }
    count
}

fn asks_for(atom: &GraphAtom, z: u8) -> bool
    ensures { result ≡ asks_for z atom.now }
{
    match &atom.test.kind {
        Kind::Element(e) => *e == z,
        _ => false,
    }
}

// How many atoms of the molecule are of this element.
fn count_there(atoms: &[Atom], z: u8) -> usize
    ensures { result ≡ count_by (is_of z) atoms.now }
{
    let mut count = 0;
    for atom in atoms {
        if atom.element == z {
            count += 1;
        }
    }
    count
}
