// From which atoms an atom is reached over two bonds and over three. Each atom that is gets the
// stamp of the search, so that nothing has to be wiped between two searches.
ghost use Rattle.std.specs.Prelude.{◌≡◌, ◌≤◌, ◌<◌, ◌+◌, ◌-◌, ◌⊎◌, length};
ghost use Rattle.mk_model.specs.Edges.{AreBetween, rows_of};
ghost use Rattle.mk_marks.specs.SixRings.{set_of};
ghost use Rattle.mk_rings.specs.Reach.{Further, IsReached, KeepsStamps, LeadsToStamped};
ghost use Rattle.mk_rings.specs.Rounds.{AllBelow};

use crate::six_rings::takes;
use crate::steps::{numbers_of, step_over};
use mk_model::{Edge, Neighbours};

/// Stamps the atoms that the start reaches over two bonds, of which the first takes the label and
/// the second the other one, and those that it reaches over a third that takes the label again.
pub fn reach(
    near: &Neighbours,
    bonds: &[Edge],
    marks: &[bool],
    two: &mut [usize],
    three: &mut [usize],
    stamp: usize,
    start: u32,
    label: u8,
)
    requires ends { AreBetween (length near.now) bonds.now }
    requires rows { near.now ≡ rows_of (length near.now) bonds.now }
    requires size { length marks.now ≡ length bonds.now }
    requires two { length two.old ≡ length near.now + 1 }
    requires three { length three.old ≡ length near.now + 1 }
    requires start { (1 ≤ start) × (start ≤ length near.now) }
    requires label { (label ≡ 1) ⊎ (label ≡ 2) }
    requires new { (0 < stamp) × AllBelow stamp two.old }
    ensures reached { IsReached bonds.now (set_of marks.now) start label two.new three.new stamp }
    ensures below_two { AllBelow (stamp + 1) two.new }
    ensures below_three { AllBelow (stamp + 1) three.old → AllBelow (stamp + 1) three.new }
{
    let numbers = numbers_of(near, bonds, start);
    for i in 0..numbers.len() {
        let over = step_over(numbers, bonds, start, i);
        if !takes(bonds, marks, over.bond, label) {
            continue;
        }
        reach_two(near, bonds, marks, two, three, stamp, over.to, 3 - label);
    }
}

// Stamps the atoms that y leads to over a bond that takes the label, and those that these lead to
// over one that takes the other.
fn reach_two(
    near: &Neighbours,
    bonds: &[Edge],
    marks: &[bool],
    two: &mut [usize],
    three: &mut [usize],
    stamp: usize,
    y: u32,
    label: u8,
)
    requires ends { AreBetween (length near.now) bonds.now }
    requires rows { near.now ≡ rows_of (length near.now) bonds.now }
    requires size { length marks.now ≡ length bonds.now }
    requires two { length two.old ≡ length near.now + 1 }
    requires three { length three.old ≡ length near.now + 1 }
    requires atom { (1 ≤ y) × (y ≤ length near.now) }
    requires label { (label ≡ 1) ⊎ (label ≡ 2) }
    requires further { Further bonds.now (set_of marks.now) (3 - label) two.old three.old stamp }
    ensures kept { KeepsStamps stamp two.old two.new }
    ensures led { LeadsToStamped bonds.now (set_of marks.now) label two.new stamp y }
    ensures further { Further bonds.now (set_of marks.now) (3 - label) two.new three.new stamp }
    ensures below_two { AllBelow (stamp + 1) two.old → AllBelow (stamp + 1) two.new }
    ensures below_three { AllBelow (stamp + 1) three.old → AllBelow (stamp + 1) three.new }
{
    let numbers = numbers_of(near, bonds, y);
    for i in 0..numbers.len() {
        let over = step_over(numbers, bonds, y, i);
        if !takes(bonds, marks, over.bond, label) {
            continue;
        }
        if two[over.to as usize] == stamp {
            continue;
        }
        reach_three(near, bonds, marks, three, stamp, over.to, 3 - label);
        two[over.to as usize] = stamp;
    }
}

// Stamps the atoms that z leads to over a bond that takes the label.
fn reach_three(
    near: &Neighbours,
    bonds: &[Edge],
    marks: &[bool],
    three: &mut [usize],
    stamp: usize,
    z: u32,
    label: u8,
)
    requires ends { AreBetween (length near.now) bonds.now }
    requires rows { near.now ≡ rows_of (length near.now) bonds.now }
    requires size { length marks.now ≡ length bonds.now }
    requires three { length three.old ≡ length near.now + 1 }
    requires atom { (1 ≤ z) × (z ≤ length near.now) }
    ensures kept { KeepsStamps stamp three.old three.new }
    ensures led { LeadsToStamped bonds.now (set_of marks.now) label three.new stamp z }
    ensures below { AllBelow (stamp + 1) three.old → AllBelow (stamp + 1) three.new }
{
    let numbers = numbers_of(near, bonds, z);
    for i in 0..numbers.len() {
        let over = step_over(numbers, bonds, z, i);
        if !takes(bonds, marks, over.bond, label) {
            continue;
        }
        three[over.to as usize] = stamp;
    }
}
