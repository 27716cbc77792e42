// Laws over the definitions alone, each carried by a function that does nothing but cite the laws
// that it rests on.
ghost use Rattle.mk_enum.specs.Laws.{StructuresAreAnSdfile};
ghost use Rattle.mk_enum.specs.ReadingBack.{StructuresAreReadBack};

use mk_pieces::template_is_its_own_expansion;
use mk_query::{fault_or_query, passed_queries_fit};

/// The text of an enumeration is an SDfile: one record for each code, with the table of its
/// structure.
pub fn structures_are_an_sdfile()
    ensures { StructuresAreAnSdfile }
{}

/// The table of a structure, as a query without groups, passes every check, and the one graph that
/// it stands for is that structure.
pub fn structures_are_read_back()
    ensures { StructuresAreReadBack }
{
    template_is_its_own_expansion();
    passed_queries_fit();
    fault_or_query();
}
