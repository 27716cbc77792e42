// Rounds over all bonds: each that closes a six-ring with the marks so far is marked.
ghost use Rattle.std.specs.Prelude.{◌≡◌, ◌≤◌, ◌<◌, ◌+◌, ◌^◌, ◌⊎◌, ℕ, Some, false, length, slice_get};
ghost use Rattle.mk_model.specs.declared.edge.Edge.{Edge};
ghost use Rattle.mk_model.specs.Edges.{AreBetween, rows_of};
ghost use Rattle.mk_rings.specs.Rounds.{AllBelow, Grows, IsDone};

use crate::reach::reach;
use crate::six_rings::closes_ring;
use crate::steps::{numbers_of, step_over};
use mk_model::{Edge, Neighbours};

/// Marks bonds that close a six-ring with the bonds that are marked so far. Tells whether there was
/// one.
pub fn mark_round(
    near: &Neighbours,
    atoms: u32,
    bonds: &[Edge],
    marks: &mut [bool],
    two: &mut [usize],
    three: &mut [usize],
) -> bool
    requires atoms { atoms ≡ length near.now }
    requires ends { AreBetween (length near.now) bonds.now }
    requires rows { near.now ≡ rows_of (length near.now) bonds.now }
    requires size { length marks.old ≡ length bonds.now }
    requires two { length two.old ≡ length near.now + 1 }
    requires three { length three.old ≡ length near.now + 1 }
    ensures grows { Grows bonds.now marks.old marks.new result }
    ensures done { result ≡ false → (b : ℕ) → b < length bonds.now → IsDone bonds.now marks.new b }
{
    wipe(two);
    wipe(three);
    let mut found = false;
    for before in 0..atoms {
        let stamp = 2 * before as usize + 1;
        if !mark_at(near, bonds, marks, two, three, stamp, before + 1) {
            continue;
        }
        found = true;
    }
    found
}

// Marks bonds that begin at the start and close a six-ring.
fn mark_at(
    near: &Neighbours,
    bonds: &[Edge],
    marks: &mut [bool],
    two: &mut [usize],
    three: &mut [usize],
    stamp: usize,
    start: u32,
) -> bool
    requires ends { AreBetween (length near.now) bonds.now }
    requires rows { near.now ≡ rows_of (length near.now) bonds.now }
    requires size { length marks.old ≡ length bonds.now }
    requires two { length two.old ≡ length near.now + 1 }
    requires three { length three.old ≡ length near.now + 1 }
    requires start { (1 ≤ start) × (start ≤ length near.now) }
    requires stamp { (0 < stamp) × (stamp < 2 ^ 63) }
    requires below_two { AllBelow stamp two.old }
    requires below_three { AllBelow stamp three.old }
    ensures below_two { AllBelow (stamp + 2) two.new }
    ensures below_three { AllBelow (stamp + 2) three.new }
    ensures grows { Grows bonds.now marks.old marks.new result }
    ensures done { result ≡ false → (b : ℕ) (edge : Edge) → slice_get bonds.now b ≡ Some edge → edge.first ≡ start → IsDone bonds.now marks.new b }
{
    let found = mark_from(near, bonds, marks, two, three, stamp, start, 1);
    if mark_from(near, bonds, marks, two, three, stamp + 1, start, 2) {
        return true;
    }
    found
}

// Marks bonds of this type that begin at the start and close a six-ring. The stamps are made once
// for all of them, and not where there is none: where a bond was marked meanwhile they tell too
// little, and another round follows.
fn mark_from(
    near: &Neighbours,
    bonds: &[Edge],
    marks: &mut [bool],
    two: &mut [usize],
    three: &mut [usize],
    stamp: usize,
    start: u32,
    kind: u8,
) -> bool
    requires ends { AreBetween (length near.now) bonds.now }
    requires rows { near.now ≡ rows_of (length near.now) bonds.now }
    requires size { length marks.old ≡ length bonds.now }
    requires two { length two.old ≡ length near.now + 1 }
    requires three { length three.old ≡ length near.now + 1 }
    requires start { (1 ≤ start) × (start ≤ length near.now) }
    requires kind { (kind ≡ 1) ⊎ (kind ≡ 2) }
    requires stamp { 0 < stamp }
    requires below_two { AllBelow stamp two.old }
    requires below_three { AllBelow stamp three.old }
    ensures below_two { AllBelow (stamp + 1) two.new }
    ensures below_three { AllBelow (stamp + 1) three.new }
    ensures grows { Grows bonds.now marks.old marks.new result }
    ensures done { result ≡ false → (b : ℕ) (edge : Edge) → slice_get bonds.now b ≡ Some edge → edge.first ≡ start → edge.kind ≡ kind → IsDone bonds.now marks.new b }
{
    if !is_open(near, bonds, marks, start, kind) {
        return false;
    }
    reach(near, bonds, marks, two, three, stamp, start, 3 - kind);
    let numbers = numbers_of(near, bonds, start);
    let mut some_marked = false;
    for i in 0..numbers.len() {
        let b = step_over(numbers, bonds, start, i).bond;
        if marks[b] {
            continue;
        }
        if bonds[b].first != start {
            continue;
        }
        if bonds[b].kind != kind {
            continue;
        }
        if !closes_ring(near, bonds, marks, two, three, stamp, b) {
            continue;
        }
        marks[b] = true;
        some_marked = true;
    }
    some_marked
}

// Tells whether an unmarked bond of this type begins at the start.
fn is_open(near: &Neighbours, bonds: &[Edge], marks: &[bool], start: u32, kind: u8) -> bool
    requires rows { near.now ≡ rows_of (length near.now) bonds.now }
    requires size { length marks.now ≡ length bonds.now }
    requires start { (1 ≤ start) × (start ≤ length near.now) }
    ensures { result ≡ false → (b : ℕ) (edge : Edge) → slice_get bonds.now b ≡ Some edge → edge.first ≡ start → edge.kind ≡ kind → IsDone bonds.now marks.now b }
{
    let numbers = numbers_of(near, bonds, start);
    for i in 0..numbers.len() {
        let b = step_over(numbers, bonds, start, i).bond;
        if marks[b] {
            continue;
        }
        if bonds[b].first != start {
            continue;
        }
        if bonds[b].kind != kind {
            continue;
        }
        return true;
    }
    false
}

/// Takes all stamps away.
pub fn wipe(stamps: &mut [usize])
    ensures { AllBelow 1 stamps.new }
{
    for x in 0..stamps.len() {
        stamps[x] = 0;
    }
}
