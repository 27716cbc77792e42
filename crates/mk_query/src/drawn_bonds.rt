// The bonds of a table as a query has them.
ghost use Rattle.std.specs.Prelude.{◌≡◌, IfOk};
ghost use Rattle.mk_model.specs.Templates.{joins, query_edge, query_edges};
ghost use Rattle.mk_query.specs.Drawn.{query_bond, query_bonds};

use mk_demands::{byte, natural};
use mk_model::{Edge, QueryBond};
use mk_tables::RawBond;
use mk_text::Memory;
use std::alloc::Global;

pub fn query_bonds_of(alloc: Global, bonds: &[RawBond]) -> Result<Vec<QueryBond>, Memory>
    ensures { IfOk result (λ list. list.items ≡ query_bonds bonds.now) }
{
    let mut list = Vec::with_capacity(alloc, bonds.len())?;
    for bond in bonds {
        list.push(query_bond(bond))?;
    }
    Ok(list)
}

fn query_bond(bond: &RawBond) -> QueryBond
    ensures { result ≡ query_bond bond.now }
{
    QueryBond {
        first: natural(bond.first),
        second: natural(bond.second),
        kind: byte(bond.kind),
        topology: byte(bond.topology),
    }
}

/// The bonds without their topologies.
pub fn edges_of(alloc: Global, bonds: &[QueryBond]) -> Result<Vec<Edge>, Memory>
    ensures { IfOk result (λ edges. edges.items ≡ query_edges bonds.now) }
{
    let mut edges = Vec::with_capacity(alloc, bonds.len())?;
    for bond in bonds {
        edges.push(query_edge(*bond))?;
    }
    Ok(edges)
}

fn query_edge(bond: QueryBond) -> Edge
    ensures { result ≡ query_edge bond }
{
    Edge {
        first: bond.first,
        second: bond.second,
        kind: bond.kind,
    }
}

/// Whether the bond joins x and y.
pub fn joins(x: u32, y: u32, bond: QueryBond) -> bool
    ensures { result ≡ joins x y bond }
{
    bond.first == x && bond.second == y || bond.first == y && bond.second == x
}
