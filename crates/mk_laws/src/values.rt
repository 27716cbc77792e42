// Laws that each order and each run have their value, carried by a function that does nothing.
ghost use Rattle.mk_laws.specs.Values.{AllReadOrBad, EachOrderHasEffect, EachRunHasOutcome, EffectsKeepQueries};

use mk_query::{fault_or_query, one_first_fault, one_query};
use mk_rgfile::query_file_is_exact;

/// Over told files, where each is there whose turn comes, an order comes to an effect and a run has
/// an outcome. That there is one alone where there is no
/// budget is said by `one_run`.
pub fn orders_and_runs_have_values()
    ensures effect { EachOrderHasEffect }
    ensures kept { EffectsKeepQueries }
    ensures rows { AllReadOrBad }
    ensures run { EachRunHasOutcome }
{
    // The laws on which this one rests.
    query_file_is_exact();
    one_query();
    one_first_fault();
    fault_or_query();
}
