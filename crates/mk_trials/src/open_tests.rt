// The call that takes memory: C C C R#, whose second carbon stands one to three times, by three open
// codes.
use mk_expand::open_graph;
use mk_fixtures::query_of_link_and_site;
use mk_model::{Graph, Kind, Memory};
use mk_open_codes::{alone_code, choices_of, front_code, root_places, root_slots};
use std::alloc::Global;
use std::test::Fail;

// By 0 2 the link is open, and chlorine fills the site: a carbon, and another that bears it, each
// with a free end. A ring may close through the link, so the single bond may be an aromatic one. By
// 2 0 the second carbon stands twice, and the last has a free end where the site is open, which has
// one neighbour: single bonds stay single. By 0 0 both are open, so the last carbon has two free
// ends, and no bond is left.
#[test]
fn open_codes_have_their_graphs(rt: HostRuntime) -> Result<(), Fail> {
    let (link, site, both) = graphs(rt.alloc())?;
    let four = [(6, 0), (6, 0), (6, 0), (6, 1)];
    assert!(rt;
        is_graph(&link, &[(6, 1), (6, 1), (17, 0)], &[(2, 3, 6)]),
        "0 2"
    );
    assert!(rt;
        is_graph(&site, &four, &[(1, 2, 1), (2, 3, 1), (3, 4, 1)]),
        "2 0"
    );
    assert!(rt; is_graph(&both, &[(6, 1), (6, 2)], &[]), "0 0");
    Ok(())
}

// The link may stand for three numbers, and the site for those of fluorine, chlorine and bromine, and
// for the vacant one. The front 2 leaves the site open; bromine alone leaves the link open. In the
// code 2 4 the number of the link stands first.
#[test]
fn slots_have_their_codes(rt: HostRuntime) -> Result<(), Fail> {
    let codes = codes(rt.alloc())?;
    assert!(rt; codes.choices == (3, 4), "3 and 4 choices");
    assert!(rt; codes.front.as_slice() == [2, 0].as_slice(), "2 0");
    assert!(rt; codes.alone.as_slice() == [0, 3].as_slice(), "0 3");
    assert!(rt; codes.places.as_slice() == [0, 1].as_slice(), "0 1");
    Ok(())
}

// How many choices both slots have, two open codes, and places.
#[derive(Drop)]
struct Written {
    choices: (u32, u32),
    front: Vec<u32>,
    alone: Vec<u32>,
    places: Vec<u32>,
}

// Of that query.
fn codes(alloc: Global) -> Result<Written, Memory> {
    let query = query_of_link_and_site(alloc)?;
    let last = root_slots(&query) - 1;
    let choices = (choices_of(&query, 0), choices_of(&query, last));
    let front = front_code(alloc, &query, &[2])?;
    let alone = alone_code(alloc, &query, last, 3)?;
    let mut places = Vec::new(alloc);
    root_places(&query, &[2, 4], &mut places)?;
    Ok(Written {
        choices,
        front,
        alone,
        places,
    })
}

// The graph has these elements, each with its free ends, and these bonds with their types.
fn is_graph(graph: &Graph, atoms: &[(u8, u32)], bonds: &[(u32, u32, u8)]) -> bool {
    if graph.atoms().len() != atoms.len() || graph.bonds().len() != bonds.len() {
        return false;
    }
    for (atom, (z, free)) in graph.atoms().iter().zip(atoms) {
        let is_element = match &atom.test.kind {
            Kind::Element(element) => *element == *z,
            _ => false,
        };
        if !is_element || atom.free != *free {
            return false;
        }
    }
    for (bond, (first, second, kind)) in graph.bonds().iter().zip(bonds) {
        if bond.first != *first || bond.second != *second || bond.kind != *kind {
            return false;
        }
    }
    true
}

// That query is the one that mk_model shows to keep what every query keeps.
fn graphs(alloc: Global) -> Result<(Graph, Graph, Graph), Memory> {
    let query = query_of_link_and_site(alloc)?;
    let link = open_graph(alloc, &query, &[0, 2])?;
    let site = open_graph(alloc, &query, &[2, 0])?;
    let both = open_graph(alloc, &query, &[0, 0])?;
    Ok((link, site, both))
}
