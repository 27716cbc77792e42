// Marks that are found at small cost: each bond without a mark begins a short search for a six-ring,
// and so do the bonds beside those that were marked. What that leaves is found by rounds.
ghost use Rattle.std.specs.Prelude.{◌≡◌, ◌≤◌, ◌<◌, ◌+◌, ◌⊎◌, ℕ, IfSome, IsTrue, length, slice_index};
ghost use Rattle.mk_model.specs.Aromatic.{Takes};
ghost use Rattle.mk_model.specs.Edges.{AreBetween, Joins, rows_of};
ghost use Rattle.mk_marks.specs.SixRings.{set_of};
ghost use Rattle.mk_rings.specs.Rounds.{AllBelow, Follows, Spreads};

use crate::ring_search::{ring_along, stamp_ends};
use crate::rounds::wipe;
use crate::six_rings::takes;
use crate::steps::{numbers_of, step_over};
use mk_model::{Edge, Neighbours};

// How many steps a search takes at most, and how many there are for each bond on average.
const STEPS: usize = 60;

const STEPS_A_BOND: usize = 30;

/// Marks bonds that follow from those that are marked. The queue has room for as many numbers as
/// there are bonds.
pub fn spread(
    near: &Neighbours,
    atoms: u32,
    bonds: &[Edge],
    marks: &mut [bool],
    queue: &mut [usize],
    ends: &mut [usize],
)
    requires ends { AreBetween (length near.now) bonds.now }
    requires rows { near.now ≡ rows_of (length near.now) bonds.now }
    requires size { length marks.old ≡ length bonds.now }
    requires atoms { atoms ≡ length near.now }
    requires queue { AllBelow (length bonds.now) queue.old }
    requires stamps { length ends.old ≡ length near.now + 1 }
    ensures spreads { Spreads bonds.now marks.old marks.new }
    ensures queue { AllBelow (length bonds.now) queue.new }
{
    wipe(ends);
    let mut purse = bonds.len().saturating_mul(STEPS_A_BOND);
    let mut tail = 0;
    for b in 0..bonds.len() {
        tail = spread_from(near, atoms, bonds, marks, queue, ends, tail, b, &mut purse);
    }
    let mut head = 0;
    while head < tail {
        let edge = bonds[queue[head]];
        tail = spread_at(
            near, atoms, bonds, marks, queue, ends, tail, edge.first, &mut purse,
        );
        tail = spread_at(
            near,
            atoms,
            bonds,
            marks,
            queue,
            ends,
            tail,
            edge.second,
            &mut purse,
        );
        head += 1;
    }
}

// Looks for rings through the bonds of an atom.
fn spread_at(
    near: &Neighbours,
    atoms: u32,
    bonds: &[Edge],
    marks: &mut [bool],
    queue: &mut [usize],
    ends: &mut [usize],
    tail: usize,
    x: u32,
    purse: &mut usize,
) -> usize
    requires ends { AreBetween (length near.now) bonds.now }
    requires rows { near.now ≡ rows_of (length near.now) bonds.now }
    requires size { length marks.old ≡ length bonds.now }
    requires queue { AllBelow (length bonds.now) queue.old }
    requires stamps { length ends.old ≡ length near.now + 1 }
    requires room { tail ≤ length queue.old }
    requires atoms { atoms ≡ length near.now }
    requires atom { (1 ≤ x) × (x ≤ length near.now) }
    ensures spreads { Spreads bonds.now marks.old marks.new }
    ensures queue { AllBelow (length bonds.now) queue.new }
    ensures room { result ≤ length queue.new }
{
    let numbers = numbers_of(near, bonds, x);
    let mut tail = tail;
    for i in 0..numbers.len() {
        let b = step_over(numbers, bonds, x, i).bond;
        tail = spread_from(near, atoms, bonds, marks, queue, ends, tail, b, purse);
    }
    tail
}

// Marks a ring through a bond without a mark, if one is found, and puts the bonds that are new into
// the queue. Gives the index behind them. The purse falls with each search, so no two searches have
// one stamp.
fn spread_from(
    near: &Neighbours,
    atoms: u32,
    bonds: &[Edge],
    marks: &mut [bool],
    queue: &mut [usize],
    ends: &mut [usize],
    tail: usize,
    b: usize,
    purse: &mut usize,
) -> usize
    requires ends { AreBetween (length near.now) bonds.now }
    requires rows { near.now ≡ rows_of (length near.now) bonds.now }
    requires size { length marks.old ≡ length bonds.now }
    requires queue { AllBelow (length bonds.now) queue.old }
    requires stamps { length ends.old ≡ length near.now + 1 }
    requires room { tail ≤ length queue.old }
    requires atoms { atoms ≡ length near.now }
    requires bond { b < length bonds.now }
    ensures spreads { Spreads bonds.now marks.old marks.new }
    ensures queue { AllBelow (length bonds.now) queue.new }
    ensures room { result ≤ length queue.new }
{
    let edge = bonds[b];
    if marks[b] || *purse == 0 || edge.kind < 1 || edge.kind > 2 {
        return tail;
    }
    let stamp = *purse;
    stamp_ends(near, bonds, marks, ends, stamp, edge.first, 3 - edge.kind);
    let path = [0, 0, 0, 0, edge.second, edge.first];
    let mut steps = STEPS;
    let found = ring_along(
        near,
        bonds,
        marks,
        ends,
        stamp,
        path,
        edge.second,
        3 - edge.kind,
        4,
        &mut steps,
    );
    *purse = stamp
        .saturating_sub(STEPS.saturating_sub(steps))
        .min(stamp - 1);
    let Some(ring) = found else { return tail };
    mark_ring(near, atoms, bonds, marks, queue, tail, ring, edge.kind)
}

// Marks the bonds of a ring, if the atoms are one whose bonds take the labels, and puts those that
// are new into the queue.
fn mark_ring(
    near: &Neighbours,
    atoms: u32,
    bonds: &[Edge],
    marks: &mut [bool],
    queue: &mut [usize],
    tail: usize,
    ring: [u32; 6],
    label: u8,
) -> usize
    requires rows { near.now ≡ rows_of (length near.now) bonds.now }
    requires size { length marks.old ≡ length bonds.now }
    requires queue { AllBelow (length bonds.now) queue.old }
    requires room { tail ≤ length queue.old }
    requires atoms { atoms ≡ length near.now }
    requires ring { length ring ≡ 6 }
    requires label { (label ≡ 1) ⊎ (label ≡ 2) }
    ensures spreads { Spreads bonds.now marks.old marks.new }
    ensures queue { AllBelow (length bonds.now) queue.new }
    ensures room { result ≤ length queue.new }
{
    if !are_distinct(&ring) {
        return tail;
    }
    let Some(first) = bond_over(near, atoms, bonds, marks, ring[0], ring[1], label) else {
        return tail
    };
    let Some(second) = bond_over(near, atoms, bonds, marks, ring[1], ring[2], 3 - label) else {
        return tail
    };
    let Some(third) = bond_over(near, atoms, bonds, marks, ring[2], ring[3], label) else {
        return tail
    };
    let Some(fourth) = bond_over(near, atoms, bonds, marks, ring[3], ring[4], 3 - label) else {
        return tail
    };
    let Some(fifth) = bond_over(near, atoms, bonds, marks, ring[4], ring[5], label) else {
        return tail
    };
    let Some(sixth) = bond_over(near, atoms, bonds, marks, ring[5], ring[0], 3 - label) else {
        return tail
    };
    mark_all(
        bonds,
        marks,
        queue,
        tail,
        &[first, second, third, fourth, fifth, sixth],
    )
}

// Marks these bonds, and puts those that are new into the queue.
fn mark_all(
    bonds: &[Edge],
    marks: &mut [bool],
    queue: &mut [usize],
    tail: usize,
    places: &[usize],
) -> usize
    requires size { length marks.old ≡ length bonds.now }
    requires queue { AllBelow (length bonds.now) queue.old }
    requires room { tail ≤ length queue.old }
    requires places { AllBelow (length bonds.now) places.now }
    requires follow { (i : ℕ) → i < length places.now → Follows bonds.now marks.old (slice_index places.now i) }
    ensures spreads { Spreads bonds.now marks.old marks.new }
    ensures queue { AllBelow (length bonds.now) queue.new }
    ensures room { result ≤ length queue.new }
{
    let mut tail = tail;
    for i in 0..places.len() {
        let b = places[i];
        if marks[b] {
            continue;
        }
        marks[b] = true;
        tail = put_at(queue, tail, b);
    }
    tail
}

// A bond between two atoms that takes the label.
fn bond_over(
    near: &Neighbours,
    atoms: u32,
    bonds: &[Edge],
    marks: &[bool],
    x: u32,
    y: u32,
    label: u8,
) -> Option<usize>
    requires rows { near.now ≡ rows_of (length near.now) bonds.now }
    requires size { length marks.now ≡ length bonds.now }
    requires atoms { atoms ≡ length near.now }
    ensures bond { IfSome result (λ b. b < length bonds.now) }
    ensures joined { IfSome result (λ b. Joins bonds.now b x y) }
    ensures takes { IfSome result (λ b. Takes bonds.now (set_of marks.now) b label) }
{
    if x < 1 || x > atoms {
        return None;
    }
    let numbers = numbers_of(near, bonds, x);
    for i in 0..numbers.len() {
        let over = step_over(numbers, bonds, x, i);
        if over.to != y {
            continue;
        }
        if takes(bonds, marks, over.bond, label) {
            return Some(over.bond);
        }
    }
    None
}

// Tells whether the six atoms are distinct.
fn are_distinct(ring: &[u32]) -> bool
    requires { length ring.now ≡ 6 }
    ensures { IsTrue result → (i j : ℕ) → i < 6 → j < 6 → slice_index ring.now i ≡ slice_index ring.now j → i ≡ j }
{
    for i in 0..6 {
        for j in 0..i {
            if ring[i] == ring[j] {
                return false;
            }
        }
    }
    true
}

// Puts a number at an index of the queue, if it has one there, and gives the next index.
fn put_at(queue: &mut [usize], tail: usize, b: usize) -> usize
    requires room { tail ≤ length queue.old }
    ensures places { (bound : ℕ) → b < bound → AllBelow bound queue.old → AllBelow bound queue.new }
    ensures room { result ≤ length queue.new }
{
    if tail == queue.len() {
        return tail;
    }
    queue[tail] = b;
    tail + 1
}
