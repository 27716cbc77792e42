// The hits of C-O in C-O-C, from places of every kind on, and what shows that there are none. The
// shorthand is that of docs/TESTING.md, "Tables of tests". Other graphs and molecules are compared
// by checks/plain.
ghost use Rattle.std.specs.Prelude.{◌≡◌, ◌<◌};

use mk_counts::{cannot_hold, counts_asked, counts_there};
use mk_fixtures::{graph_of_sketch, mol_of_sketch};
use mk_match::{Maps, least_map};
use mk_model::{Graph, Map, Memory, Mol, Place, Steps, Turn};
use mk_walk::may_hold;
use std::alloc::Global;
use std::marker::Brand;
use std::sync::ledger::{Blank, Ledger};
use std::test::Fail;

const COC: &str = "C O C | 1-2 2-3";

const CO: &str = "C O | 1-2";

// A front, and the least hit of C-O in C-O-C that isn't below it.
const FRONTS: [(&[u32], Option<[u32; 2]>); 11] = [
    (&[], Some([1, 2])),
    (&[0], Some([1, 2])),
    (&[0, 9, 9], Some([1, 2])),
    (&[1], Some([1, 2])),
    (&[1, 2], Some([1, 2])),
    (&[1, 2, 0], Some([3, 2])),
    (&[1, 3], Some([3, 2])),
    (&[2], Some([3, 2])),
    (&[3, 2], Some([3, 2])),
    (&[3, 2, 0], None),
    (&[4294967295], None),
];

#[test]
fn fronts(rt: HostRuntime) -> Result<(), Fail> {
    let graph = graph_of_sketch(rt.alloc(), CO)?;
    let mol = mol_of_sketch(rt.alloc(), COC)?;
    for (row, (front, want)) in FRONTS.iter().enumerate() {
        let found = least(rt.alloc(), &graph, &mol, front)?;
        assert!(rt; is_hit(&found, want), "row {row}");
    }
    Ok(())
}

fn is_hit(found: &Option<Map>, want: &Option<[u32; 2]>) -> bool {
    match (found, want) {
        (Some(hit), Some(other)) => hit.as_slice() == other.as_slice(),
        (None, None) => true,
        _ => false,
    }
}

// A graph, a molecule, and whether their counts show that there is no hit.
static COUNTS: [(&str, &str, bool); 5] = [
    (COC, CO, true),
    ("O O | 1-2", COC, true),
    (CO, COC, false),
    ("C C O |", COC, false),
    ("* * |", CO, false),
];

#[test]
fn counts_of_elements(rt: HostRuntime) -> Result<(), Fail> {
    for (query, molecule, want) in &COUNTS {
        let graph = graph_of_sketch(rt.alloc(), query)?;
        let mol = mol_of_sketch(rt.alloc(), molecule)?;
        let asked = counts_asked(rt.alloc(), &graph)?;
        let counts = counts_there(&mol);
        assert!(rt; cannot_hold(&asked, &counts) == *want, "{query} {molecule}");
    }
    Ok(())
}

#[test]
fn taken_up(rt: HostRuntime) -> Result<(), Fail> {
    let graph = graph_of_sketch(rt.alloc(), CO)?;
    let mol = mol_of_sketch(rt.alloc(), COC)?;
    let last = place_at_end::<Brand>(rt.alloc(), graph, &mol, &[1, 2, 0], Blank::new(1))?;
    assert!(rt; is_place(&last, &[3, 2, 0]));
    Ok(())
}

fn is_place(found: &Option<Place>, want: &[u32]) -> bool {
    match found {
        Some(place) => place.as_slice() == want,
        None => false,
    }
}

// The place behind the one hit that is left from a place; none where that isn't so, or where the
// place isn't the one that it began with.
fn place_at_end<L: Ledger>(
    alloc: Global,
    graph: Graph,
    mol: &Mol,
    place: &[u32],
    blank: Blank,
) -> Result<Option<Place>, Memory>
    requires name { blank.name ≡ L.name }
    requires parts { blank.parts ≡ L.parts }
    requires one { 0 < L.parts }
{
    let mut steps = Steps::<L>::new(blank);
    let mut maps = Maps::from_place(alloc, graph, mol, place, &mut steps)?;
    place_behind_one(alloc, &mut maps, place)
}

// A search has one way out in the function that makes it, since the prover goes through all that is
// let go at each of them.
fn place_behind_one(
    alloc: Global,
    maps: &mut Maps<'_>,
    place: &[u32],
) -> Result<Option<Place>, Memory> {
    let first = maps.place(alloc)?;
    if first.as_slice() != place || maps.next().is_none() || maps.next().is_some() {
        return Ok(None);
    }
    Ok(Some(maps.place(alloc)?))
}

// Places, and the turns of C-O in C-O-C from each: `M` comes to a list that is no hit, `I` takes a
// hit out, and `E` finds nothing left. The carbon is looked for on each atom, and the oxygen on the
// neighbours of its image.
static TURNS: [(&str, &[u32], &str); 4] = [
    ("the empty place", &[], "MI12MMI32E"),
    ("behind a hit", &[1, 2, 0], "MMI32E"),
    ("a hit itself", &[3, 2], "I32E"),
    ("above all atoms", &[10], "E"),
];

#[test]
fn turns(rt: HostRuntime) -> Result<(), Fail> {
    let mol = mol_of_sketch(rt.alloc(), COC)?;
    for (name, place, want) in &TURNS {
        let graph = graph_of_sketch(rt.alloc(), CO)?;
        let told = turns_from::<Brand>(rt.alloc(), graph, &mol, place, Blank::new(1))?;
        assert!(rt; told.as_slice() == want.as_bytes(), "{name}");
    }
    Ok(())
}

fn turns_from<L: Ledger>(
    alloc: Global,
    graph: Graph,
    mol: &Mol,
    place: &[u32],
    blank: Blank,
) -> Result<Vec<u8>, Memory>
    requires name { blank.name ≡ L.name }
    requires parts { blank.parts ≡ L.parts }
    requires one { 0 < L.parts }
{
    let mut steps = Steps::<L>::new(blank);
    let mut maps = Maps::from_place(alloc, graph, mol, place, &mut steps)?;
    told_by(alloc, &mut maps)
}

fn told_by(alloc: Global, maps: &mut Maps<'_>) -> Result<Vec<u8>, Memory> {
    let mut told = Vec::new(alloc);
    for _ in 0..32 {
        match maps.advance() {
            Turn::Item => {
                told.push(b'I')?;
                for number in maps.item() {
                    told.push(b'0'.saturating_add((*number).min(9) as u8))?;
                }
            }
            Turn::Moved => told.push(b'M')?,
            Turn::End => {
                told.push(b'E')?;
                return Ok(told);
            }
        }
    }
    Ok(told)
}

// A graph, a molecule, the turns that a search may take, and whether the molecule may hold the graph.
// The look ahead before the first atom finds that two oxygens have no place in C-O-C, and the first
// turn says so.
static HELD: [(&str, &str, u32, u64, bool); 13] = [
    (CO, COC, 0, 100, true),
    (CO, COC, 1, 100, true),
    (CO, COC, 100, 100, true),
    ("O O | 1-2", COC, 0, 100, true),
    ("O O | 1-2", COC, 1, 100, false),
    ("O O | 1-2", COC, 100, 100, false),
    ("O O | 1-2", COC, 100, 0, true),
    ("O O | 1-2", COC, 100, 6, true),
    ("C |", "|", 0, 100, true),
    ("C |", "|", 1, 100, false),
    ("C |", "|", 1, 0, true),
    ("|", COC, 1, 100, true),
    ("|", "|", 1, 100, true),
];

#[test]
fn held_in_so_many_turns(rt: HostRuntime) -> Result<(), Fail> {
    for (query, molecule, turns, steps, want) in &HELD {
        let graph = graph_of_sketch(rt.alloc(), query)?;
        let mol = mol_of_sketch(rt.alloc(), molecule)?;
        let mut purse = *steps;
        let may = may_hold(rt.alloc(), &graph, &mol, *turns, &mut purse)?;
        assert!(rt; may == *want, "{query} {molecule} {turns} {steps}");
    }
    Ok(())
}

// The least hit from the front on. What it ticks is counted on a ledger that is made for it alone.
fn least(alloc: Global, graph: &Graph, mol: &Mol, front: &[u32]) -> Result<Option<Map>, Memory> {
    least_on::<Brand>(alloc, graph, mol, front, Blank::new(1))
}

fn least_on<L: Ledger>(
    alloc: Global,
    graph: &Graph,
    mol: &Mol,
    front: &[u32],
    blank: Blank,
) -> Result<Option<Map>, Memory>
    requires name { blank.name ≡ L.name }
    requires parts { blank.parts ≡ L.parts }
    requires one { 0 < L.parts }
{
    let mut steps = Steps::<L>::new(blank);
    least_map(alloc, graph, mol, front, &mut steps)
}
