// The shelf's screens, postings and candidates. The shorthand is that of docs/TESTING.md, "Tables of
// tests".
ghost use Rattle.std.specs.Prelude.{◌≡◌, ◌<◌};

use mk_fixtures::{graph_of_sketch, mol_of_sketch};
use mk_index::{Memory, Screen, Shelf, need_of};
use mk_model::Steps;
use mk_screen::screen_of;
use std::alloc::Global;
use std::marker::Brand;
use std::process::Abort;
use std::sync::ledger::{Blank, Ledger};
use std::test::Fail;

const RING: &str = "C C C C C C | 1=2 2-3 3=4 4-5 5=6 1-6";

// Three rows, of which the middle one alone is a ring: it alone is a candidate for the ring. Once
// it is taken out there is none, and the postings have the numbers of the others.
#[test]
fn a_ring_among_three(rt: HostRuntime) -> Result<(), Fail> {
    assert!(rt; is_ring_found(rt.alloc())?);
    Ok(())
}

fn is_ring_found(alloc: Global) -> Result<bool, Fail> {
    let mut shelf = Shelf::new(alloc);
    let need = need_of(&graph_of_sketch(alloc, RING)?);
    let empty = next(&shelf, &need, 1) == None;
    put(alloc, &mut shelf, 1, "C |")?;
    put(alloc, &mut shelf, 2, RING)?;
    put(alloc, &mut shelf, 3, "C |")?;
    let from = next(&shelf, &need, 1) == Some(2) && next(&shelf, &need, 2) == Some(2);
    let found = from && next(&shelf, &need, 3) == None;
    let held = is_posted(alloc, &shelf, 137, &[1, 2, 3])? && is_posted(alloc, &shelf, 298, &[2])?;
    let _ = shelf.remove(2);
    let gone = next(&shelf, &need, 1) == None;
    let left = is_posted(alloc, &shelf, 137, &[1, 3])? && is_posted(alloc, &shelf, 298, &[])?;
    Ok(empty && found && held && gone && left)
}

// Whether these are the numbers of the rows that have the bit.
fn is_posted(alloc: Global, shelf: &Shelf, bit: u32, numbers: &[u32]) -> Result<bool, Memory>
    requires { bit < 512 }
{
    Ok(shelf.posting(alloc, bit)?.as_slice() == numbers)
}

// A need without bits is met by each row, hydrogens alone too; that of a carbon is not met by
// these; and a need of many carbons is met by 15 alone.
#[test]
fn needs_of_little_and_of_much(rt: HostRuntime) -> Result<(), Fail> {
    assert!(rt; are_needs_met(rt.alloc())?);
    Ok(())
}

const FIFTEEN: &str = "C C C C C C C C C C C C C C C |";

const SIXTEEN: &str = "C C C C C C C C C C C C C C C C |";

fn are_needs_met(alloc: Global) -> Result<bool, Fail> {
    let mut shelf = Shelf::new(alloc);
    put(alloc, &mut shelf, 4, "H H | 1-2")?;
    put(alloc, &mut shelf, 7, "C C C |")?;
    put(alloc, &mut shelf, 9, FIFTEEN)?;
    let free = need_of(&graph_of_sketch(alloc, "A * | 1-2")?);
    let carbon = need_of(&graph_of_sketch(alloc, "C |")?);
    let many = need_of(&graph_of_sketch(alloc, SIXTEEN)?);
    let any = next(&shelf, &free, 1) == Some(4) && next(&shelf, &free, 5) == Some(7);
    let none = next(&shelf, &free, 10) == None;
    let some = next(&shelf, &carbon, 1) == Some(7) && next(&shelf, &many, 1) == Some(9);
    Ok(any && none && some && shelf.last_row() == Some(9))
}

// The molecules that are put under the numbers 1 to 200.
static DRAWN: [&str; 4] = ["C |", "O |", "C O | 1-2", "N C O | 1-2 2-3"];

// Numbers 1 to 200 in another order, of which each fifth is taken out again and each seventh
// replaced: postings and candidates are those of the screens of what is held.
#[test]
fn postings_after_edits(rt: HostRuntime) -> Result<(), Fail> {
    assert!(rt; is_as_plain(rt.alloc())?);
    Ok(())
}

fn is_as_plain(alloc: Global) -> Result<bool, Fail> {
    let shelf = edited(alloc)?;
    for bit in [137u32, 138, 139, 140, 300, 48, 511] {
        let want = numbers_with(alloc, &shelf, bit)?;
        if shelf.posting(alloc, bit % 512)?.as_slice() != want.as_slice() {
            return Ok(false);
        }
    }
    for sketch in ["C O | 1-2", "N |", "F |", "S |"] {
        let need = need_of(&graph_of_sketch(alloc, sketch)?);
        for from in 1..=201u32 {
            if next(&shelf, &need, from) != plain_next(&shelf, &need, from) {
                return Ok(false);
            }
        }
    }
    Ok(true)
}

fn edited(alloc: Global) -> Result<Shelf, Fail> {
    let mut shelf = Shelf::new(alloc);
    for k in 0..200u32 {
        let number = k * 73 % 200 + 1;
        put(alloc, &mut shelf, number, DRAWN[(number % 4) as usize])?;
    }
    for k in 1..=40u32 {
        let _ = shelf.remove(k * 5);
    }
    for k in 1..=28u32 {
        put_over(alloc, &mut shelf, k * 7, "F |")?;
    }
    Ok(shelf)
}

// The numbers whose molecules' screens have the bit, looked at one by one.
fn numbers_with(alloc: Global, shelf: &Shelf, bit: u32) -> Result<Vec<u32>, Memory> {
    let mut numbers = Vec::new(alloc);
    for number in 1..=200u32 {
        if let Some(mol) = shelf.get(number) {
            let word = screen_of(mol).bits[(bit / 64 % 8) as usize];
            if (word >> (bit % 64)) & 1 == 1 {
                numbers.push(number)?;
            }
        }
    }
    Ok(numbers)
}

// The first number from there on whose screen covers the need, looked at one by one.
fn plain_next(shelf: &Shelf, need: &Screen, from: u32) -> Option<u32> {
    for number in from..=200 {
        if let Some(mol) = shelf.get(number) {
            if covers(&screen_of(mol), need) {
                return Some(number);
            }
        }
    }
    None
}

fn covers(held: &Screen, need: &Screen) -> bool {
    for w in 0..8 {
        if need.bits[w] & !held.bits[w] != 0 {
            return false;
        }
    }
    for i in 0..16 {
        if need.counts[i] > held.counts[i] {
            return false;
        }
    }
    true
}

fn put(alloc: Global, shelf: &mut Shelf, number: u32, sketch: &str) -> Result<(), Fail> {
    let mol = mol_of_sketch(alloc, sketch)?;
    if shelf.holds(number) {
        return Err(Fail::from("a number that is held"));
    }
    shelf.reserve(1)?;
    shelf.insert(number, mol);
    Ok(())
}

// Where the number is held.
fn put_over(alloc: Global, shelf: &mut Shelf, number: u32, sketch: &str) -> Result<(), Fail> {
    let mol = mol_of_sketch(alloc, sketch)?;
    if shelf.holds(number) {
        let _ = shelf.replace(number, mol);
    }
    Ok(())
}

fn next(shelf: &Shelf, need: &Screen, from: u32) -> Option<u32> {
    next_on::<Brand>(shelf, need, from, Blank::new(1))
}

fn next_on<L: Ledger>(shelf: &Shelf, need: &Screen, from: u32, blank: Blank) -> Option<u32>
    requires name { blank.name ≡ L.name }
    requires parts { blank.parts ≡ L.parts }
    requires one { 0 < L.parts }
{
    let mut looks = Steps::<L>::new(blank);
    shelf.next_candidate(need, from, &mut looks)
}
