// A law over the definitions alone, carried by a function that does nothing but cite the law that
// it rests on.
ghost use Rattle.mk_drill.specs.Drill.{OneDrill};

use mk_query::one_query;

/// There is at most one line of the drill from a state and with a count.
pub fn one_drill()
    ensures { OneDrill }
{
    one_query();
}
