// The expansion of a query by a code.
ghost use Rattle.std.specs.Prelude.{◌≡◌, IfOk, map};
ghost use Rattle.mk_model.specs.Codes.{IsCode};
ghost use Rattle.mk_model.specs.Expansions.{IsExpansion};
ghost use Rattle.mk_pieces.specs.Fragments.{bare};

use crate::choosing::opened_by;
use mk_model::{Graph, GraphBond, Memory, Query, QueryBond, put_in_order};
use mk_rings::marked_graph;
use std::alloc::Global;

/// The graph that the query becomes by a structural code of its root.
pub fn expand(alloc: Global, query: &Query, code: &[u32]) -> Result<Graph, Memory>
    requires { IsCode query.now 0 code.now }
    ensures { IfOk result (IsExpansion query.now code.now) }
{
    // The reader's clause says what every query keeps.
    let _kept = query.templates();
    let (part, _behind) = opened_by(alloc, query, 0, code, 0)?;
    let (atoms, bonds) = part.into_lists();
    let mut drawn = bare_bonds(alloc, &bonds)?;
    put_in_order(&mut drawn);
    let graph = marked_graph(alloc, atoms, drawn)?;
    // And what every graph keeps.
    let _count = graph.atom_count();
    Ok(graph)
}

// The bonds as those of a graph, without marks.
fn bare_bonds(alloc: Global, bonds: &[QueryBond]) -> Result<Vec<GraphBond>, Memory>
    ensures { IfOk result (λ drawn. drawn.items ≡ map bare bonds.now) }
{
    bonds.iter().map(|bond| bare(*bond)).collect(alloc)
}

fn bare(bond: QueryBond) -> GraphBond
    ensures { result ≡ bare bond }
{
    GraphBond {
        first: bond.first,
        second: bond.second,
        kind: bond.kind,
        topology: bond.topology,
        ring: false,
        aromatic: false,
    }
}
