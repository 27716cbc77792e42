// The keys of `[C R# R# | 1-2 1-3]` in a shelf of four molecules, of which the second has none.
// Fluorine may fill the first site and chlorine the second, and has to where fluorine does.
ghost use Rattle.std.specs.Prelude.{◌≡◌, ◌<◌, ◌≤◌};

use crate::key_tests::{Records, are_keys_from, shelf_of_records};
use mk_expansions::least_key_of;
use mk_fixtures::{mol_of_sketch, query_of_two_sites};
use mk_index::Shelf;
use mk_model::{Key, Memory, Mol, Place, Query, Steps};
use mk_search::{Hits, Page, least_hit, page};
use std::alloc::Global;
use std::marker::Brand;
use std::process::Abort;
use std::sync::ledger::{Blank, Ledger};
use std::test::Fail;

const RECORDS: Records = &[
    (2, "C F Cl | 1-2 1-3"),
    (3, "O N | 1-2"),
    (5, "Cl C Cl F F | 1-2 2-3 2-4 2-5"),
    (4_294_967_295, "C Cl | 1-2"),
];

static KEYS: [&[u32]; 12] = [
    &[2, 1, 1, 1, 2, 3],
    &[2, 2, 1, 1, 3],
    &[2, 2, 2, 1],
    &[5, 1, 1, 2, 4, 1],
    &[5, 1, 1, 2, 4, 3],
    &[5, 1, 1, 2, 5, 1],
    &[5, 1, 1, 2, 5, 3],
    &[5, 2, 1, 2, 1],
    &[5, 2, 1, 2, 3],
    &[5, 2, 2, 2],
    &[4_294_967_295, 2, 1, 1, 2],
    &[4_294_967_295, 2, 2, 1],
];

// A place, and how many keys are below it.
static PLACES: [(&str, &[u32], usize); 15] = [
    ("the opening place", &[], 0),
    ("below all", &[1, 7], 0),
    ("a number alone", &[2], 0),
    ("within a hit", &[2, 1, 1, 1, 2], 0),
    ("a key", &[2, 1, 1, 1, 2, 3], 0),
    ("behind a key", &[2, 1, 1, 1, 2, 3, 0], 1),
    ("longer than any key", &[2, 1, 1, 1, 2, 3, 9, 9, 9, 9], 1),
    ("a code that isn't valid", &[2, 1, 2], 1),
    ("between two records", &[4, 9, 9], 3),
    ("within a code", &[5, 2], 7),
    ("above all hits of a code", &[5, 1, 1, 9], 7),
    ("behind a code", &[5, 2, 1, 0], 7),
    ("behind the last key", &[4_294_967_295, 2, 2, 1, 0], 12),
    ("above all", &[4_294_967_295, 3], 12),
    ("of 514 numbers", &[5; 514], 10),
];

#[test]
fn places(rt: HostRuntime) -> Result<(), Fail> {
    let query = query_of_two_sites(rt.alloc())?;
    let shelf = shelf_of_records(rt.alloc(), RECORDS)?;
    for (name, place, below) in &PLACES {
        let found = page_from(rt.alloc(), &shelf, &query, place, 100)?;
        assert!(rt;
            are_keys_from(found.hits.as_slice(), &KEYS, *below),
            "{name}"
        );
        assert!(rt; found.ended, "{name}");
        let least = least_from(rt.alloc(), &shelf, &query, place)?;
        assert!(rt; is_first(&least, *below), "{name}");
    }
    Ok(())
}

// The keys one by one, and the place at the end: behind the last key, or the first one where there
// was none.
#[test]
fn keys_one_by_one(rt: HostRuntime) -> Result<(), Fail> {
    let query = query_of_two_sites(rt.alloc())?;
    let shelf = shelf_of_records(rt.alloc(), RECORDS)?;
    for (name, place, below) in &PLACES {
        let (keys, end) = hits_from(rt.alloc(), &shelf, &query, place)?;
        assert!(rt; are_keys_from(&keys, &KEYS, *below), "{name}");
        let last: &[u32] = if keys.is_empty() {
            place
        } else {
            &[4_294_967_295, 2, 2, 1, 0]
        };
        assert!(rt; end.as_slice() == last, "{name}");
    }
    Ok(())
}

// All keys, page by page. A page of all twelve doesn't say that it is the last.
#[test]
fn pages(rt: HostRuntime) -> Result<(), Fail> {
    let query = query_of_two_sites(rt.alloc())?;
    let shelf = shelf_of_records(rt.alloc(), RECORDS)?;
    for (limit, pages) in [(1usize, 13u32), (5, 3), (12, 2), (13, 1)] {
        let (keys, count) = all_pages(rt.alloc(), &shelf, &query, limit)?;
        assert!(rt; are_keys_from(&keys, &KEYS, 0), "{limit}");
        assert_eq!(rt; count, pages, "{limit}");
    }
    Ok(())
}

// Record 2 is taken out, record 3 is replaced, and record 4, of hydrogens alone, is put in: then the
// keys of 3 are those of the last record, and 4 has none.
#[test]
fn other_records(rt: HostRuntime) -> Result<(), Fail> {
    let query = query_of_two_sites(rt.alloc())?;
    let mut shelf = shelf_of_records(rt.alloc(), RECORDS)?;
    let _ = shelf.remove(2);
    let mol = mol_of_sketch(rt.alloc(), "C Cl | 1-2")?;
    if shelf.holds(3) {
        let _ = shelf.replace(3, mol);
    }
    let hydrogens = mol_of_sketch(rt.alloc(), "H H | 1-2")?;
    shelf.reserve(1)?;
    if !shelf.holds(4) {
        shelf.insert(4, hydrogens);
    }
    let found = page_from(rt.alloc(), &shelf, &query, &[], 100)?;
    let keys = found.hits.as_slice();
    assert!(rt; is_key(keys.get(0), &[3, 2, 1, 1, 2]));
    assert!(rt; is_key(keys.get(1), &[3, 2, 2, 1]));
    assert!(rt; are_keys_from(keys.get(2..).unwrap_or(&[]), &KEYS, 3));
    assert!(rt; found.ended);
    let (keys, _) = hits_from(rt.alloc(), &shelf, &query, &[2, 1, 1, 1, 2, 3, 0])?;
    assert!(rt; is_key(keys.get(0), &[3, 2, 1, 1, 2]));
    Ok(())
}

// The first key of each record that has one. Behind the last record there is none to go to.
#[test]
fn rows_of_records(rt: HostRuntime) -> Result<(), Fail> {
    let query = query_of_two_sites(rt.alloc())?;
    let shelf = shelf_of_records(rt.alloc(), RECORDS)?;
    let keys = firsts::<Brand>(rt.alloc(), &shelf, &query, Blank::new(1))?;
    assert!(rt; is_key(keys.get(0), KEYS[0]));
    assert!(rt; is_key(keys.get(1), KEYS[3]));
    assert!(rt; is_key(keys.get(2), KEYS[10]));
    assert!(rt; keys.len() == 3);
    Ok(())
}

#[test]
fn the_pages_agree_with_the_plain_program(rt: HostRuntime) -> Result<(), Fail> {
    let query = query_of_two_sites(rt.alloc())?;
    let mut keys = Vec::new(rt.alloc());
    for (number, sketch) in RECORDS {
        let mol = mol_of_sketch(rt.alloc(), sketch)?;
        put_plain(rt.alloc(), *number, &mol, &query, &mut keys)?;
    }
    assert!(rt; are_keys_from(&keys, &KEYS, 0));
    Ok(())
}

// ---- what is asked

fn is_key(found: Option<&Key>, key: &[u32]) -> bool {
    match found {
        Some(found) => found.as_slice() == key,
        None => false,
    }
}

// It is the first of the keys from there on, or there are none.
fn is_first(found: &Option<Key>, first: usize) -> bool {
    match (found, KEYS.get(first)) {
        (Some(key), Some(other)) => key.as_slice() == *other,
        (None, None) => true,
        _ => false,
    }
}

// The keys of all pages, and how many pages there are.
fn all_pages(
    alloc: Global,
    shelf: &Shelf,
    query: &Query,
    limit: usize,
) -> Result<(Vec<Key>, u32), Memory> {
    let mut keys = Vec::new(alloc);
    let mut place = Vec::new(alloc);
    for count in 1..=20u32 {
        let found = page_from(alloc, shelf, query, &place, limit)?;
        place = Vec::from_slice(alloc, found.place.as_slice())?;
        for key in found.hits.into_vec() {
            keys.push(key)?;
        }
        if found.ended {
            return Ok((keys, count));
        }
    }
    Ok((keys, 0))
}

// Puts the keys of one molecule, each looked for from the place behind the last.
fn put_plain(
    alloc: Global,
    number: u32,
    mol: &Mol,
    query: &Query,
    keys: &mut Vec<Key>,
) -> Result<(), Memory> {
    let mut place = Vec::new(alloc);
    for _ in 0..20u32 {
        let Some(found) = plain_from::<Brand>(alloc, mol, query, &place, Blank::new(1))? else {
            return Ok(());
        };
        place = Vec::from_slice(alloc, found.as_slice())?;
        place.push(0)?;
        let mut key = vec![in alloc; number]?;
        key.extend_from_slice(found.as_slice())?;
        keys.push(Key::of(key))?;
    }
    Ok(())
}

// ---- the calls, each on a ledger that is made for it alone

fn page_from(
    alloc: Global,
    shelf: &Shelf,
    query: &Query,
    place: &[u32],
    limit: usize,
) -> Result<Page, Memory> {
    page_on::<Brand>(
        alloc,
        shelf,
        query,
        place,
        limit.clamp(1, 100),
        Blank::new(1),
    )
}

fn page_on<L: Ledger>(
    alloc: Global,
    shelf: &Shelf,
    query: &Query,
    place: &[u32],
    limit: usize,
    blank: Blank,
) -> Result<Page, Memory>
    requires name { blank.name ≡ L.name }
    requires parts { blank.parts ≡ L.parts }
    requires one { 0 < L.parts }
    requires least { 1 ≤ limit }
    requires most { limit ≤ 100 }
{
    let mut steps = Steps::<L>::new(blank);
    page(alloc, shelf, query, place, limit, &mut steps)
}

pub fn hits_from(
    alloc: Global,
    shelf: &Shelf,
    query: &Query,
    place: &[u32],
) -> Result<(Vec<Key>, Place), Memory> {
    hits_on::<Brand>(alloc, shelf, query, place, Blank::new(1))
}

fn hits_on<L: Ledger>(
    alloc: Global,
    shelf: &Shelf,
    query: &Query,
    place: &[u32],
    blank: Blank,
) -> Result<(Vec<Key>, Place), Memory>
    requires name { blank.name ≡ L.name }
    requires parts { blank.parts ≡ L.parts }
    requires one { 0 < L.parts }
{
    let mut steps = Steps::<L>::new(blank);
    let mut hits = Hits::from_place(alloc, shelf, query, place)?;
    keys_and_end(alloc, &mut hits, &mut steps)
}

// The keys that are left, and the place at the end. A search has one way out in the function that
// makes it, since the prover goes through all that is let go at each of them.
fn keys_and_end<L: Ledger>(
    alloc: Global,
    hits: &mut Hits<'_>,
    steps: &mut Steps<L>,
) -> Result<(Vec<Key>, Place), Memory> {
    let mut keys = Vec::new(alloc);
    for _ in 0..20u32 {
        let Some(key) = hits.next(alloc, steps)? else {
            break;
        };
        keys.push(key)?;
    }
    let end = hits.place(alloc)?;
    Ok((keys, end))
}

fn least_from(
    alloc: Global,
    shelf: &Shelf,
    query: &Query,
    place: &[u32],
) -> Result<Option<Key>, Memory> {
    least_on::<Brand>(alloc, shelf, query, place, Blank::new(1))
}

fn least_on<L: Ledger>(
    alloc: Global,
    shelf: &Shelf,
    query: &Query,
    place: &[u32],
    blank: Blank,
) -> Result<Option<Key>, Memory>
    requires name { blank.name ≡ L.name }
    requires parts { blank.parts ≡ L.parts }
    requires one { 0 < L.parts }
{
    let mut steps = Steps::<L>::new(blank);
    least_hit(alloc, shelf, query, place, &mut steps)
}

fn plain_from<L: Ledger>(
    alloc: Global,
    mol: &Mol,
    query: &Query,
    place: &[u32],
    blank: Blank,
) -> Result<Option<Key>, Memory>
    requires name { blank.name ≡ L.name }
    requires parts { blank.parts ≡ L.parts }
    requires one { 0 < L.parts }
{
    let mut steps = Steps::<L>::new(blank);
    least_key_of(alloc, mol, query, place, &mut steps)
}

// The keys, where each record is left behind its first, up to the last record.
fn firsts<L: Ledger>(
    alloc: Global,
    shelf: &Shelf,
    query: &Query,
    blank: Blank,
) -> Result<Vec<Key>, Memory>
    requires name { blank.name ≡ L.name }
    requires parts { blank.parts ≡ L.parts }
    requires one { 0 < L.parts }
{
    let mut steps = Steps::<L>::new(blank);
    let mut hits = Hits::from_place(alloc, shelf, query, &[])?;
    firsts_left(alloc, &mut hits, &mut steps)
}

fn firsts_left<L: Ledger>(
    alloc: Global,
    hits: &mut Hits<'_>,
    steps: &mut Steps<L>,
) -> Result<Vec<Key>, Memory> {
    let mut keys = Vec::new(alloc);
    for _ in 0..20u32 {
        let Some(key) = hits.next(alloc, steps)? else {
            break;
        };
        keys.push(key)?;
        if !hits.pass_record() {
            break;
        }
    }
    Ok(keys)
}
