// Laws over the definitions alone, each carried by a function that does nothing.
ghost use Rattle.mk_values.specs.Laws.{DrillsHaveLines, EditsAreJudged, FaultOrMolecule};

/// A table has a first check that it fails, or a filled molecule.
pub fn tables_are_molecules()
    ensures { FaultOrMolecule }
{}

/// An edit is refused at its first demand that isn't met, or has its changes.
pub fn edits_are_judged()
    ensures { EditsAreJudged }
{}

/// Each start and each count have a line of the drill.
pub fn drills_have_lines()
    ensures { DrillsHaveLines }
{}
