// What of a graph can be written.
ghost use Rattle.std.specs.Prelude.{◌≡◌, ◌≤◌, ◌↔◌, IsTrue, length};
ghost use Rattle.mk_enum.specs.Writable.{HasFewEach, HasNoFreeEnd, IsWritable};

use mk_model::{Graph, GraphAtom};

// How many bonds a table may have, and how many an atom of it.
const MOST_BONDS: usize = 999;

const MOST_AT_AN_ATOM: usize = 20;

/// Tells whether a graph can be written as a structure: no end is free, and the bonds are few.
pub fn writable(graph: &Graph) -> bool
    ensures { IsTrue result ↔ IsWritable graph.now }
{
    if !has_no_free_end(graph.atoms()) {
        return false;
    }
    if graph.bonds().len() > MOST_BONDS {
        return false;
    }
    has_few_each(graph)
}

fn has_no_free_end(atoms: &[GraphAtom]) -> bool
    ensures { IsTrue result ↔ HasNoFreeEnd atoms.now }
{
    atoms.iter().all(|atom| atom.free == 0)
}

// Whether no atom has too many bonds.
fn has_few_each(graph: &Graph) -> bool
    ensures { IsTrue result ↔ HasFewEach (length graph.now.atoms) graph.now.bonds }
{
    for i in 0..graph.atom_count() {
        if graph.bonds_at(i + 1).len() > MOST_AT_AN_ATOM {
            return false;
        }
    }
    true
}
