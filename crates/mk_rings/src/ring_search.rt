// The search for a six-ring through a bond without a mark, which gives up after some steps. What it
// finds is checked before a mark is put, so nothing is promised of it.
ghost use Rattle.std.specs.Prelude.{◌≡◌, ◌≤◌, ◌<◌, ◌+◌, ◌⊎◌, IfSome, length};
ghost use Rattle.mk_model.specs.Edges.{AreBetween, Joins, rows_of};

use crate::six_rings::{is_among, takes};
use crate::steps::{Step, numbers_of, step_over};
use mk_model::{Edge, Neighbours};

/// Stamps the atoms that the start leads to over a bond that takes the label.
pub fn stamp_ends(
    near: &Neighbours,
    bonds: &[Edge],
    marks: &[bool],
    ends: &mut [usize],
    stamp: usize,
    start: u32,
    label: u8,
)
    requires ends { AreBetween (length near.now) bonds.now }
    requires rows { near.now ≡ rows_of (length near.now) bonds.now }
    requires size { length marks.now ≡ length bonds.now }
    requires stamps { length ends.old ≡ length near.now + 1 }
    requires atom { (1 ≤ start) × (start ≤ length near.now) }
{
    let numbers = numbers_of(near, bonds, start);
    for i in 0..numbers.len() {
        let over = step_over(numbers, bonds, start, i);
        if !takes(bonds, marks, over.bond, label) {
            continue;
        }
        ends[over.to as usize] = stamp;
    }
}

/// Gives the atoms of a ring: the path, which stands behind the first `left` places, with so many
/// atoms more, the last of which has the stamp.
#[cycle(search)]
pub fn ring_along(
    near: &Neighbours,
    bonds: &[Edge],
    marks: &[bool],
    ends: &[usize],
    stamp: usize,
    path: [u32; 6],
    at: u32,
    label: u8,
    left: usize,
    steps: &mut usize,
) -> Option<[u32; 6]>
    requires ends { AreBetween (length near.now) bonds.now }
    requires rows { near.now ≡ rows_of (length near.now) bonds.now }
    requires size { length marks.now ≡ length bonds.now }
    requires stamps { length ends.now ≡ length near.now + 1 }
    requires atom { (1 ≤ at) × (at ≤ length near.now) }
    requires path { length path ≡ 6 }
    requires label { (label ≡ 1) ⊎ (label ≡ 2) }
    requires left { (1 ≤ left) × (left ≤ 4) }
    ensures { IfSome result (λ ring. length ring ≡ 6) }
{
    let numbers = numbers_of(near, bonds, at);
    for i in 0..numbers.len() {
        if *steps == 0 {
            return None;
        }
        *steps -= 1;
        let over = step_over(numbers, bonds, at, i);
        let ring = ring_over(
            near, bonds, marks, ends, stamp, path, label, left, over, steps,
        );
        if ring.is_some() {
            return ring;
        }
    }
    None
}

#[cycle(search)]
fn ring_over(
    near: &Neighbours,
    bonds: &[Edge],
    marks: &[bool],
    ends: &[usize],
    stamp: usize,
    path: [u32; 6],
    label: u8,
    left: usize,
    over: Step,
    steps: &mut usize,
) -> Option<[u32; 6]>
    requires ends { AreBetween (length near.now) bonds.now }
    requires rows { near.now ≡ rows_of (length near.now) bonds.now }
    requires size { length marks.now ≡ length bonds.now }
    requires stamps { length ends.now ≡ length near.now + 1 }
    requires bond { over.bond < length bonds.now }
    requires atom { (1 ≤ over.to) × (over.to ≤ length near.now) }
    requires path { length path ≡ 6 }
    requires label { (label ≡ 1) ⊎ (label ≡ 2) }
    requires left { (1 ≤ left) × (left ≤ 4) }
    ensures { IfSome result (λ ring. length ring ≡ 6) }
{
    if !takes(bonds, marks, over.bond, label) {
        return None;
    }
    if left == 1 && ends[over.to as usize] != stamp {
        return None;
    }
    if is_among(&path[left..], over.to) {
        return None;
    }
    let mut longer = path;
    longer[left - 1] = over.to;
    if left == 1 {
        return Some(longer);
    }
    ring_along(
        near,
        bonds,
        marks,
        ends,
        stamp,
        longer,
        over.to,
        3 - label,
        left - 1,
        steps,
    )
}
