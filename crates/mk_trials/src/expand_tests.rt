// The call that takes memory, once: a query with a link and a site of two labels.
use mk_expand::expand;
use mk_fixtures::query_of_link_and_site;
use mk_model::{Graph, Kind, Memory};
use std::alloc::Global;
use std::test::Fail;

// C C C R# by the code 2 2: the middle carbon stands twice, and chlorine, the one member of the
// second label, fills the site.
#[test]
fn expands_a_link_and_a_site(rt: HostRuntime) -> Result<(), Fail> {
    let graph = example(rt.alloc())?;
    assert!(rt; is_chain(&graph));
    Ok(())
}

fn is_chain(graph: &Graph) -> bool {
    graph.atom_count() == 5
        && graph.bonds().len() == 4
        && elements(graph) == [6, 6, 6, 6, 17]
        && ends(graph) == [(1, 2), (2, 3), (3, 4), (4, 5)]
}

// The elements of five atoms, and 0 for one that isn't an element.
fn elements(graph: &Graph) -> [u8; 5] {
    let mut list = [0; 5];
    for (i, atom) in graph.atoms().iter().enumerate() {
        if i < 5 {
            list[i] = match &atom.test.kind {
                Kind::Element(z) => *z,
                _ => 0,
            };
        }
    }
    list
}

// The ends of four bonds.
fn ends(graph: &Graph) -> [(u32, u32); 4] {
    let mut list = [(0, 0); 4];
    for (i, bond) in graph.bonds().iter().enumerate() {
        if i < 4 {
            list[i] = (bond.first, bond.second);
        }
    }
    list
}

// That query is the one that mk_model shows to keep what every query keeps.
fn example(alloc: Global) -> Result<Graph, Memory> {
    let query = query_of_link_and_site(alloc)?;
    expand(alloc, &query, &[2, 2])
}
