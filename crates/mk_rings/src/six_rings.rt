// The search for a six-ring through a bond whose bonds take the labels 1, 2, 1, 2, 1, 2.
ghost use Rattle.std.specs.Prelude.{◌≡◌, ◌≢◌, ◌≤◌, ◌<◌, ◌+◌, ◌-◌, ◌↔◌, ◌⊎◌, Contains, IsTrue, MatchBool, Some, drop, false, length, slice_get, slice_index};
ghost use Rattle.mk_model.specs.declared.edge.Edge.{Edge};
ghost use Rattle.mk_model.specs.Edges.{AreBetween, Joins, rows_of};
ghost use Rattle.mk_model.specs.Aromatic.{Takes};
ghost use Rattle.mk_marks.specs.SixRings.{CanClose, ClosesBy, ClosesRing, NotAmong, set_of};
ghost use Rattle.mk_rings.specs.Reach.{IsReached, MaySkip};

use crate::steps::{Step, numbers_of, step_over};
use mk_model::{Edge, Neighbours};

/// Tells whether a six-ring that takes the labels goes through an unmarked bond. The stamps tell
/// from which atoms the bond's first atom is reached, with the marks as they are; where they tell
/// it with fewer marks, a ring may be missed.
pub fn closes_ring(
    near: &Neighbours,
    bonds: &[Edge],
    marks: &[bool],
    two: &[usize],
    three: &[usize],
    stamp: usize,
    b: usize,
) -> bool
    requires ends { AreBetween (length near.now) bonds.now }
    requires rows { near.now ≡ rows_of (length near.now) bonds.now }
    requires size { length marks.now ≡ length bonds.now }
    requires two { length two.now ≡ length near.now + 1 }
    requires three { length three.now ≡ length near.now + 1 }
    requires bond { b < length bonds.now }
    ensures ring { IsTrue result → ClosesRing bonds.now (set_of marks.now) b }
    ensures none { (edge : Edge) → slice_get bonds.now b ≡ Some edge → IsReached bonds.now (set_of marks.now) edge.first (3 - edge.kind) two.now three.now stamp → result ≡ false → ¬ (ClosesRing bonds.now (set_of marks.now) b) }
{
    let edge = bonds[b];
    if edge.kind < 1 || edge.kind > 2 {
        return false;
    }
    let path = [0, 0, 0, 0, edge.second, edge.first];
    can_close(
        near,
        bonds,
        marks,
        two,
        three,
        stamp,
        edge.first,
        path,
        edge.second,
        3 - edge.kind,
        4,
    )
}

// Tells whether the path, which stands behind the first `left` places, can be closed so many atoms
// further.
#[cycle(search)]
fn can_close(
    near: &Neighbours,
    bonds: &[Edge],
    marks: &[bool],
    two: &[usize],
    three: &[usize],
    stamp: usize,
    start: u32,
    path: [u32; 6],
    at: u32,
    label: u8,
    left: usize,
) -> bool
    requires ends { AreBetween (length near.now) bonds.now }
    requires rows { near.now ≡ rows_of (length near.now) bonds.now }
    requires size { length marks.now ≡ length bonds.now }
    requires two { length two.now ≡ length near.now + 1 }
    requires three { length three.now ≡ length near.now + 1 }
    requires atom { (1 ≤ at) × (at ≤ length near.now) }
    requires path { length path ≡ 6 }
    requires label { (label ≡ 1) ⊎ (label ≡ 2) }
    requires left { left ≤ 4 }
    ensures closed { IsTrue result → CanClose bonds.now (set_of marks.now) start (drop left path) at label left }
    ensures open { MaySkip bonds.now (set_of marks.now) start two.now three.now stamp label left → result ≡ false → ¬ (CanClose bonds.now (set_of marks.now) start (drop left path) at label left) }
{
    let numbers = numbers_of(near, bonds, at);
    for i in 0..numbers.len() {
        let over = step_over(numbers, bonds, at, i);
        if closes_over(
            near, bonds, marks, two, three, stamp, start, path, at, label, left, over,
        ) {
            return true;
        }
    }
    false
}

// Tells whether it can be closed over one of the bonds of its last atom.
#[cycle(search)]
fn closes_over(
    near: &Neighbours,
    bonds: &[Edge],
    marks: &[bool],
    two: &[usize],
    three: &[usize],
    stamp: usize,
    start: u32,
    path: [u32; 6],
    at: u32,
    label: u8,
    left: usize,
    over: Step,
) -> bool
    requires ends { AreBetween (length near.now) bonds.now }
    requires rows { near.now ≡ rows_of (length near.now) bonds.now }
    requires size { length marks.now ≡ length bonds.now }
    requires two { length two.now ≡ length near.now + 1 }
    requires three { length three.now ≡ length near.now + 1 }
    requires bond { over.bond < length bonds.now }
    requires joined { Joins bonds.now over.bond at over.to }
    requires path { length path ≡ 6 }
    requires label { (label ≡ 1) ⊎ (label ≡ 2) }
    requires left { left ≤ 4 }
    ensures closed { IsTrue result → ClosesBy bonds.now (set_of marks.now) start (drop left path) at label left over.bond }
    ensures open { MaySkip bonds.now (set_of marks.now) start two.now three.now stamp label left → result ≡ false → ¬ (ClosesBy bonds.now (set_of marks.now) start (drop left path) at label left over.bond) }
{
    if !takes(bonds, marks, over.bond, label) {
        return false;
    }
    if left == 0 {
        return over.to == start;
    }
    if is_stamped_out(two, three, stamp, over.to, left - 1) {
        return false;
    }
    if is_among(&path[left..], over.to) {
        return false;
    }
    let mut longer = path;
    longer[left - 1] = over.to;
    can_close(
        near,
        bonds,
        marks,
        two,
        three,
        stamp,
        start,
        longer,
        over.to,
        3 - label,
        left - 1,
    )
}

// Tells whether the stamps say that a path that ends here can't be closed one or two atoms further.
fn is_stamped_out(two: &[usize], three: &[usize], stamp: usize, at: u32, left: usize) -> bool
    requires two { at < length two.now }
    requires three { at < length three.now }
    ensures { IsTrue result → ((left ≡ 1) × (slice_index two.now at ≢ stamp)) ⊎ ((left ≡ 2) × (slice_index three.now at ≢ stamp)) }
{
    if left == 1 {
        return two[at as usize] != stamp;
    }
    if left == 2 {
        return three[at as usize] != stamp;
    }
    false
}

/// Tells whether the bond is marked already or has the type of the label.
pub fn takes(bonds: &[Edge], marks: &[bool], b: usize, label: u8) -> bool
    requires bond { b < length bonds.now }
    requires size { length marks.now ≡ length bonds.now }
    ensures { IsTrue result ↔ Takes bonds.now (set_of marks.now) b label }
{
    if marks[b] {
        return true;
    }
    bonds[b].kind == label
}

/// Tells whether y is one of the atoms.
pub fn is_among(atoms: &[u32], y: u32) -> bool
    ensures cases { MatchBool result (Contains atoms.now y) (NotAmong atoms.now y) }
{
    for atom in atoms {
        if *atom == y {
            return true;
        }
    }
    false
}
