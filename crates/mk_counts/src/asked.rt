// Counts that show that a molecule can't hold a graph, taken once for a graph and once for a
// molecule.
ghost use Rattle.std.specs.Prelude.{◌≡◌, IfOk, IsTrue, get_or};
ghost use Rattle.mk_model.specs.Graphs.{GraphView};
ghost use Rattle.mk_model.specs.Molecules.{Molecule};
ghost use Rattle.mk_counts.specs.Asked.{AreAsked, AreThere};
ghost use Rattle.mk_counts.specs.Counts.{HasNoHit};

use crate::counts::{count_asked, element_asked};
use mk_model::{Graph, Memory, Mol};
use std::alloc::Global;

/// An element, and how often a graph asks for it.
#[derive(Clone, Copy, Debug)]
pub struct ElementCount {
    pub element: u8,
    pub count: usize,
}

/// How many atoms a graph has, and how many it asks for of each element that it names.
#[derive(Debug, Drop)]
pub struct Asked {
    pub atoms: usize,
    pub elements: Vec<ElementCount>,
}

/// How many atoms a molecule has, and how many of each element, by its number.
#[derive(Clone, Copy, Debug)]
pub struct Counts {
    pub atoms: usize,
    pub elements: [u32; 119],
}

/// Counts what a graph asks for.
pub fn counts_asked(alloc: Global, graph: &Graph) -> Result<Asked, Memory>
    ensures { IfOk result (AreAsked graph.now) }
{
    let mut elements = Vec::new(alloc);
    for atom in graph.atoms() {
        let element = element_asked(atom);
        if element == 0 || is_counted(&elements, element) {
            continue;
        }
        let count = count_asked(graph.atoms(), element);
        elements.push(ElementCount { element, count })?;
    }
    Ok(Asked {
        atoms: graph.atoms().len(),
        elements,
    })
}

// Tells that the element stands in the list.
fn is_counted(elements: &[ElementCount], element: u8) -> bool {
    elements.iter().any(|asked| asked.element == element)
}

/// Counts what a molecule has.
pub fn counts_there(mol: &Mol) -> Counts
    ensures { AreThere mol.now result }
{
    let mut elements = [0; 119];
    for atom in mol.atoms() {
        elements[atom.element as usize] += 1;
    }
    Counts {
        atoms: mol.atoms().len(),
        elements,
    }
}

// How many atoms there are of an element.
fn of_element(counts: &Counts, element: u8) -> usize
    ensures { result ≡ get_or counts.now.elements element 0 }
{
    counts.elements.get(element as usize).copied().unwrap_or(0) as usize
}

/// Tells that there are too few atoms, or too few of an element. Then there is no hit.
pub fn cannot_hold(asked: &Asked, counts: &Counts) -> bool
    ensures { IsTrue result → (graph : GraphView) (mol : Molecule) → AreAsked graph asked.now → AreThere mol counts.now → HasNoHit graph mol }
{
    if counts.atoms < asked.atoms {
        return true;
    }
    for one in &asked.elements {
        if of_element(counts, one.element) < one.count {
            return true;
        }
    }
    false
}
