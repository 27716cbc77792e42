// Keys that are left from a place on, worked out by hand.
use crate::drawn_queries::{Drawn, Groups, query_of};
use crate::search_tests::hits_from;
use mk_fixtures::mol_of_sketch;
use mk_index::Shelf;
use mk_model::Key;
use std::alloc::Global;
use std::test::Fail;

/// Records, each a number with a molecule.
pub type Records = &'static [(u32, &'static str)];

const ETHERS: Records = &[
    (1, "C O C O | 1-2 2-3 3-4"),
    (3, "O C | 1-2"),
    (4, "C O | 1-2"),
];

static LEFT: [&[u32]; 3] = [&[1, 3, 4], &[3, 2, 1], &[4, 1, 2]];

// Carbon 3 of the first molecule stands between two oxygens, and the place is behind the key that
// takes the first of them.
#[test]
fn keys_behind_a_place(rt: HostRuntime) -> Result<(), Fail> {
    let alloc = rt.alloc();
    let drawn = Drawn {
        root: "C O | 1-2",
        groups: &[],
    };
    let query = query_of(alloc, drawn)?;
    let shelf = shelf_of_records(alloc, ETHERS)?;
    let (keys, _) = hits_from(alloc, &shelf, &query, &[1, 3, 2, 0])?;
    assert!(rt; are_keys_from(&keys, &LEFT, 0));
    Ok(())
}

// ---- fronts that are passed over

const FLUORINE: &str = "F | {M  APO  1   1   1}";

const CHLORINE: &str = "Cl | {M  APO  1   1   1}";

const BROMINE: &str = "Br | {M  APO  1   1   1}";

const HALOGENS: Groups = &[
    (1, &[FLUORINE, CHLORINE, BROMINE]),
    (2, &[FLUORINE, CHLORINE, BROMINE]),
];

// A carbon with a halogen at each of two sites: nine codes. The second molecule has one halogen, so
// it holds each front of one number, and no code. The third has none.
const TWO_HALOGENS: Drawn<'static> = Drawn {
    root: "C R# R# | 1-2 1-3 {M  RGP  2   2   1   3   2}",
    groups: HALOGENS,
};

const HALOMETHANES: Records = &[
    (1, "C F Cl | 1-2 1-3"),
    (2, "C Br | 1-2"),
    (4, "C C | 1-2"),
    (5, "C Br F | 1-2 1-3"),
    (7, "Br C Br | 1-2 2-3"),
];

static THEIR_KEYS: [&[u32]; 6] = [
    &[1, 1, 2, 1, 2, 3],
    &[1, 2, 1, 1, 3, 2],
    &[5, 1, 3, 1, 3, 2],
    &[5, 3, 1, 1, 2, 3],
    &[7, 3, 3, 2, 1, 3],
    &[7, 3, 3, 2, 3, 1],
];

// A place, and how many keys are below it.
static THEIR_PLACES: [(&str, &[u32], usize); 11] = [
    ("the opening place", &[], 0),
    ("at a code that is passed over", &[1, 1, 1], 0),
    ("behind the codes with hits of a front", &[1, 1, 3], 1),
    ("within a front that is passed over", &[1, 3, 2, 1], 2),
    ("where one halogen is held", &[2, 3, 1], 2),
    ("at the last code there", &[2, 3, 3], 2),
    ("where nothing is held", &[4, 2, 1], 2),
    ("between two records", &[4, 9], 2),
    ("between two codes with hits", &[5, 2], 3),
    ("within a hit", &[7, 3, 3, 2, 2], 5),
    ("behind all", &[7, 3, 4], 6),
];

#[test]
fn fronts_of_sites(rt: HostRuntime) -> Result<(), Fail> {
    let alloc = rt.alloc();
    let query = query_of(alloc, TWO_HALOGENS)?;
    let shelf = shelf_of_records(alloc, HALOMETHANES)?;
    for (name, place, below) in &THEIR_PLACES {
        let (keys, _) = hits_from(alloc, &shelf, &query, place)?;
        assert!(rt; are_keys_from(&keys, &THEIR_KEYS, *below), "{name}");
    }
    Ok(())
}

// Three carbons, of which the second stands one to three times, and a halogen behind them: nine codes.
// The second molecule has too few carbons for any length.
const ONE_SITE: Groups = &[(1, &[FLUORINE, CHLORINE, BROMINE])];

const A_CHAIN: Drawn<'static> = Drawn {
    root: "C C C R# | 1-2 2-3 3-4 {M  LIN  1   2   3   1   3}{M  RGP  1   4   1}",
    groups: ONE_SITE,
};

const CHAINS: Records = &[
    (1, "C C C F | 1-2 2-3 3-4"),
    (2, "C C F | 1-2 2-3"),
    (3, "C C C C Cl | 1-2 2-3 3-4 4-5"),
];

static CHAIN_KEYS: [&[u32]; 3] = [
    &[1, 1, 1, 1, 2, 3, 4],
    &[3, 1, 2, 2, 3, 4, 5],
    &[3, 2, 2, 1, 2, 3, 4, 5],
];

static CHAIN_PLACES: [(&str, &[u32], usize); 6] = [
    ("the opening place", &[], 0),
    ("a length that isn't held", &[1, 2], 1),
    ("a code of that length", &[1, 2, 3, 1], 1),
    ("a molecule that is too short", &[2, 1, 1], 1),
    ("between two lengths", &[3, 1, 3], 2),
    ("behind the lengths that are held", &[3, 3], 3),
];

#[test]
fn fronts_of_links(rt: HostRuntime) -> Result<(), Fail> {
    let alloc = rt.alloc();
    let query = query_of(alloc, A_CHAIN)?;
    let shelf = shelf_of_records(alloc, CHAINS)?;
    for (name, place, below) in &CHAIN_PLACES {
        let (keys, _) = hits_from(alloc, &shelf, &query, place)?;
        assert!(rt; are_keys_from(&keys, &CHAIN_KEYS, *below), "{name}");
    }
    Ok(())
}

// ---- what search_tests draws and looks for too

pub fn shelf_of_records(alloc: Global, records: Records) -> Result<Shelf, Fail> {
    let mut shelf = Shelf::new(alloc);
    for (number, sketch) in records {
        let mol = mol_of_sketch(alloc, sketch)?;
        shelf.reserve(1)?;
        if !shelf.holds(*number) {
            shelf.insert(*number, mol);
        }
    }
    Ok(shelf)
}

// The keys are these, from the first so many on.
pub fn are_keys_from(keys: &[Key], all: &'static [&'static [u32]], first: usize) -> bool {
    if keys.len().saturating_add(first) != all.len() {
        return false;
    }
    for (key, other) in keys.iter().zip(all.iter().skip(first)) {
        if key.as_slice() != *other {
            return false;
        }
    }
    true
}
