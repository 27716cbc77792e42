// Laws over the definitions alone, each carried by a function that does nothing.
ghost use Rattle.mk_marks.specs.Laws.{EdgesHaveMarks, GraphBondsHaveMarks, MolBondsHaveMarks, OneListOfMarks};
ghost use Rattle.mk_marks.specs.Laws.{OneListOfGraphBonds, OneListOfMolBonds};

/// Every simple list of edges has marks by the definitions, and one list of marks alone; so it is
/// that of marked bonds of a molecule, and bonds of a graph can be marked.
pub fn bonds_have_marks()
    ensures edges { EdgesHaveMarks }
    ensures one { OneListOfMarks }
    ensures molecules { MolBondsHaveMarks }
    ensures graphs { GraphBondsHaveMarks }
{}

/// The marks determine the bonds: edges have one list of bonds with the marks of the definitions,
/// in a molecule and in a graph.
pub fn marks_determine_bonds()
    ensures molecules { OneListOfMolBonds }
    ensures graphs { OneListOfGraphBonds }
{}
