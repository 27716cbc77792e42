// Steps over the bonds of an atom.
ghost use Rattle.std.specs.Prelude.{◌≡◌, ◌≤◌, ◌<◌, ◌-◌, length, slice_index};
ghost use Rattle.mk_model.specs.Edges.{AreBetween, Joins, numbers_at, rows_of};

use mk_model::{Edge, Neighbours};

/// Over the bond at this place, to this atom.
#[derive(Clone, Copy, Debug, PartialEq, Eq)]
pub struct Step {
    pub bond: usize,
    pub to: u32,
}

/// The numbers of the bonds of atom x.
pub fn numbers_of<'a>(near: &'a Neighbours, bonds: &[Edge], x: u32) -> &'a [u32]
    requires rows { near.now ≡ rows_of (length near.now) bonds.now }
    requires atom { (1 ≤ x) × (x ≤ length near.now) }
    ensures { result.now ≡ numbers_at bonds.now x }
{
    near.at(x)
}

/// The step from atom x over the bond whose number stands at index i.
pub fn step_over(numbers: &[u32], bonds: &[Edge], x: u32, i: usize) -> Step
    requires numbers { numbers.now ≡ numbers_at bonds.now x }
    requires within { i < length numbers.now }
    ensures number { result.bond ≡ slice_index numbers.now i - 1 }
    ensures bond { result.bond < length bonds.now }
    ensures joined { Joins bonds.now result.bond x result.to }
{
    let bond = numbers[i] as usize - 1;
    Step {
        bond,
        to: bonds[bond].other_end(x),
    }
}
