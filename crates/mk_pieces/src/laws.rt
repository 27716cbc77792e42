// Laws over the definitions alone, each carried by a function that does nothing.
ghost use Rattle.mk_pieces.specs.Drawn.{LinksThatStandOnce, WithoutSlots};
ghost use Rattle.mk_pieces.specs.Laws.{CodeAndHitAreShort, EachCodeHasExpansion, ExpansionIsNamed, OneExpansion};

use mk_marks::{bonds_have_marks, marks_determine_bonds};

/// A code and a hit of its expansion together have at most 512 numbers.
pub fn code_and_hit_are_short()
    ensures { CodeAndHitAreShort }
{}

/// Each structural code of a query's root has an expansion, and one alone.
pub fn one_expansion()
    ensures some { EachCodeHasExpansion }
    ensures one { OneExpansion }
{
    bonds_have_marks();
    marks_determine_bonds()
}

/// The atoms and bonds of an expansion are those that their names say, each name being the way to
/// its atom.
pub fn expansion_is_as_named()
    ensures { ExpansionIsNamed }
{}

/// A template without slots is its own expansion.
pub fn template_is_its_own_expansion()
    ensures { WithoutSlots }
{}

/// Links that stand once each leave their template as it is drawn.
pub fn single_links_stay_as_drawn()
    ensures { LinksThatStandOnce }
{}
