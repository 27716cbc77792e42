// Laws over the definitions alone, each carried by a function that does nothing but cite the laws
// that it rests on.
ghost use Rattle.mk_query.specs.Laws.{FaultOrQuery, KeptTextIsTheQuery, NoFaultWhereAllPass, OneFirstFault, OneQuery, PassedQueriesFit};

use mk_logic::one_range;
use mk_rgfile::kept_lines_are_the_query;

/// A raw query has at most one query.
pub fn one_query()
    ensures { OneQuery }
{
    one_range();
}

/// It has at most one first fault.
pub fn one_first_fault()
    ensures { OneFirstFault }
{
    one_query();
}

/// A raw query in range has a first fault, or a query that passes every check, and not both: so it
/// has a first fault exactly where it has no such query.
pub fn fault_or_query()
    ensures either { FaultOrQuery }
    ensures not_both { NoFaultWhereAllPass }
{
    one_query();
}

/// The query of a raw query in range keeps what every query keeps, where it passes every check.
pub fn passed_queries_fit()
    ensures { PassedQueriesFit }
{}

/// The kept lines of a query file of which every table passes its own checks are a query file too,
/// with the same raw query: no symbol and no range text that passes ends with CR.
pub fn kept_text_is_the_query()
    ensures { KeptTextIsTheQuery }
{
    kept_lines_are_the_query();
}
