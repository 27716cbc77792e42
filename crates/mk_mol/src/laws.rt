// Laws over the definitions alone, each carried by a function that does nothing but cite the laws
// that it rests on.
ghost use Rattle.mk_mol.specs.Laws.{NoFaultWhereAllPass, OneFilledMolecule, OneFirstFault, PassingTablesKeepTheirText};

use mk_marks::marks_determine_bonds;

/// A table has at most one first fault, and none where every check passes.
pub fn one_first_fault()
    ensures one { OneFirstFault }
    ensures none { NoFaultWhereAllPass }
{}

/// A table has at most one filled molecule.
pub fn one_filled_molecule()
    ensures { OneFilledMolecule }
{
    marks_determine_bonds();
}

/// A table that passes the checks on atoms and on properties keeps its text: no symbol ends with
/// CR, and there is neither an `M  ALS` nor an `M  LOG`.
pub fn passing_table_keeps_its_text()
    ensures { PassingTablesKeepTheirText }
{}
