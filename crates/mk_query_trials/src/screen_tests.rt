// Screens and needs of small molecules and graphs. The bits were computed by another program, which
// goes through all lists of up to four atoms. The shorthand is that of docs/TESTING.md, "Tables of
// tests".
ghost use Rattle.std.specs.Prelude.{◌≡◌, ◌<◌};

use mk_fixtures::{elements_of, graph_of, graph_of_sketch, mol_of_sketch};
use mk_model::{AtomTest, Graph, GraphAtom, Kind, Memory, Steps};
use mk_screen::{Screen, covers, need_of, screen_of};
use std::alloc::Global;
use std::marker::Brand;
use std::process::Abort;
use std::sync::ledger::{Blank, Ledger};
use std::test::Fail;

const COC: &str = "C O C | 1-2 2-3";

const FIFTEEN: &str = "C C C C C C C C C C C C C C C | 1-2 2-3 3-4 4-5";

const SIXTEEN: &str = "C C C C C C C C C C C C C C C C | 1-2 2-3";

// A molecule, and all bits of its paths. Its graph needs the same.
static ROWS: [(&str, &str, &[u32]); 11] = [
    ("a carbon", "C |", &[137]),
    ("an oxygen", "O |", &[139]),
    ("a path and its reverse", "C O | 1-2", &[48, 137, 139, 300]),
    ("three atoms", COC, &[48, 137, 139, 293, 300]),
    ("hydrogens alone", "H H | 1-2", &[]),
    (
        "no path leads over a hydrogen",
        "C H O | 1-2 2-3",
        &[137, 139],
    ),
    (
        "a path of four whose ends are one atom is none",
        "C C C | 1-2 2-3 1-3",
        &[31, 137, 298],
    ),
    (
        "all around a ring of four",
        "C C C C | 1-2 2-3 3-4 1-4",
        &[31, 52, 137, 298],
    ),
    (
        "a ring of three elements",
        "C N O | 1-2 2-3 1-3",
        &[
            46, 48, 49, 50, 137, 138, 139, 164, 180, 294, 298, 299, 300, 429, 431,
        ],
    ),
    (
        "at most four atoms",
        "C N O F S | 1-2 2-3 3-4 4-5",
        &[
            4, 49, 51, 65, 70, 75, 100, 137, 138, 139, 140, 147, 164, 180, 181, 189, 299, 372, 410,
            429, 431, 452,
        ],
    ),
    (
        "a ring and what hangs on it",
        "C N O F S | 1-2 2-3 1-3 3-4 4-5",
        &[
            4, 46, 48, 49, 50, 51, 64, 65, 70, 75, 99, 100, 137, 138, 139, 140, 147, 164, 180, 181,
            189, 216, 280, 294, 296, 298, 299, 300, 372, 410, 429, 431, 452, 473,
        ],
    ),
];

#[test]
fn bits_of_paths(rt: HostRuntime) -> Result<(), Fail> {
    for (name, sketch, want) in ROWS.iter() {
        assert!(rt; has_bits(rt.alloc(), sketch, want)?, "{name}");
    }
    Ok(())
}

// Whether these are the bits of the molecule, and its graph needs what it has.
fn has_bits(alloc: Global, sketch: &str, want: &[u32]) -> Result<bool, Fail> {
    let held = screen_of(&mol_of_sketch(alloc, sketch)?);
    let need = need_of(&graph_of_sketch(alloc, sketch)?);
    Ok(need == held && bits_set(alloc, &held)?.as_slice() == want)
}

// The bits that are set, rising.
fn bits_set(alloc: Global, screen: &Screen) -> Result<Vec<u32>, Memory> {
    let mut bits = Vec::new(alloc);
    for b in 0..512u32 {
        if (screen.bits[(b / 64) as usize] >> (b % 64)) & 1 == 1 {
            bits.push(b)?;
        }
    }
    Ok(bits)
}

const ALL: &str = "B C N O F Na Mg Si P S Cl K As Se Br I Fe H C |";

const COUNTS: [u8; 16] = [1, 2, 1, 1, 1, 1, 1, 1, 1, 1, 1, 1, 1, 1, 1, 1];

#[test]
fn counts_of_elements(rt: HostRuntime) -> Result<(), Fail> {
    assert!(rt; has_counts(rt.alloc())?);
    Ok(())
}

// Whether each element is counted, and sixteen carbons are as many as fifteen.
fn has_counts(alloc: Global) -> Result<bool, Fail> {
    let all = screen_of(&mol_of_sketch(alloc, ALL)?);
    let fifteen = screen_of(&mol_of_sketch(alloc, FIFTEEN)?);
    let sixteen = screen_of(&mol_of_sketch(alloc, SIXTEEN)?);
    let most = fifteen.counts[1] == 15 && sixteen.counts[1] == 15;
    Ok(most && all.counts.as_slice() == COUNTS.as_slice())
}

// A molecule, what is needed, and whether it is met.
static COVERED: [(&str, &str, bool); 7] = [
    (FIFTEEN, SIXTEEN, true),
    (COC, SIXTEEN, false),
    (COC, COC, true),
    (FIFTEEN, "C O | 1-2", false),
    (COC, "C C C |", false),
    ("H H | 1-2", "A Q * H | 1-2 2-3 3-4", true),
    ("H H | 1-2", "C |", false),
];

// A need of many carbons, which is met by 15; needs of no single element, which anything meets; and
// bits or counts that are missing.
#[test]
fn covered_needs(rt: HostRuntime) -> Result<(), Fail> {
    for (held, needed, want) in COVERED.iter() {
        assert!(rt; is_met(rt.alloc(), held, needed)? == *want, "{needed}");
    }
    Ok(())
}

// Whether a molecule covers what a graph needs.
fn is_met(alloc: Global, held: &str, needed: &str) -> Result<bool, Fail> {
    let held = screen_of(&mol_of_sketch(alloc, held)?);
    Ok(is_covered(&held, &need_of(&graph_of_sketch(alloc, needed)?)))
}

// A need of a list of one element, which anything meets.
#[test]
fn a_list_is_no_need(rt: HostRuntime) -> Result<(), Fail> {
    assert!(rt; is_list_met(rt.alloc())?);
    Ok(())
}

fn is_list_met(alloc: Global) -> Result<bool, Fail> {
    let hydrogens = screen_of(&mol_of_sketch(alloc, "H H | 1-2")?);
    Ok(is_covered(&hydrogens, &need_of(&one_carbon_in_a_list(alloc)?)))
}

// A graph of one atom, whose list has carbon alone.
fn one_carbon_in_a_list(alloc: Global) -> Result<Graph, Fail> {
    let list = Kind::OneOf(elements_of(alloc, &[6])?);
    let mut atoms = Vec::new(alloc);
    atoms.push(GraphAtom {
        test: AtomTest::of_kind(list),
        free: 0,
    })?;
    graph_of(alloc, atoms, Vec::new(alloc))
}

// Whether the screen covers the need.
fn is_covered(held: &Screen, need: &Screen) -> bool {
    covers_on::<Brand>(held, need, Blank::new(1))
}

fn covers_on<L: Ledger>(held: &Screen, need: &Screen, blank: Blank) -> bool
    requires name { blank.name ≡ L.name }
    requires parts { blank.parts ≡ L.parts }
    requires one { 0 < L.parts }
{
    let mut looks = Steps::<L>::new(blank);
    covers(held, need, &mut looks)
}
