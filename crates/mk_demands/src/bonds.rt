// What is demanded of the bonds of any table.
ghost use Rattle.std.specs.Prelude.{◌≡◌, ◌≤◌, ◌<◌, ◌-◌, ◌↔◌, All, IsFalse, IsTrue, length};
ghost use Rattle.mk_text.specs.Items.{FindsLeast, OfItem};
ghost use Rattle.mk_model.specs.Edges.{AreBetween, HasEnds, rows_of};
ghost use Rattle.mk_demands.specs.Bonds.{IsEdgeFront, IsNewBondAt};
ghost use Rattle.mk_demands.specs.BondSearch.{HasEarlier, IsNewAmong, IsNewAt};

use mk_model::{Edge, Neighbours};
use mk_tables::RawBond;

// How many bonds an atom may have.
const MOST_BONDS: usize = 20;

/// The first bond whose ends aren't two atoms, or whose pair has an earlier bond. The edges are
/// those of `edges_between`, and the neighbours theirs.
pub fn first_no_new_bond(edges: &[Edge], near: &Neighbours, bonds: &[RawBond]) -> Option<u32>
    requires few { length bonds.now ≤ 999 }
    requires front { IsEdgeFront (length near.now) bonds.now edges.now }
    requires rows { near.now ≡ rows_of (length near.now) edges.now }
    ensures { FindsLeast (IsNewBondAt (length near.now) bonds.now) result }
{
    if let Some(item) = first_pair_twice(edges, near) {
        return Some(item);
    }
    if edges.len() < bonds.len() {
        return Some(edges.len() as u32 + 1);
    }
    None
}

// The first bond whose pair has an earlier bond.
fn first_pair_twice(edges: &[Edge], near: &Neighbours) -> Option<u32>
    requires few { length edges.now ≤ 999 }
    requires ends { AreBetween (length near.now) edges.now }
    requires rows { near.now ≡ rows_of (length near.now) edges.now }
    ensures { FindsLeast (λ item. IsNewAt edges.now (item - 1)) result }
{
    for b in 0..edges.len() {
        if has_earlier(edges, near.at(edges[b].first), b) {
            return Some(b as u32 + 1);
        }
    }
    None
}

// Whether an earlier one of the numbered bonds has the pair of the bond at place b.
fn has_earlier(edges: &[Edge], numbers: &[u32], b: usize) -> bool
    requires within { b < length edges.now }
    requires numbers { All (λ number. (1 ≤ number) × (number ≤ length edges.now)) numbers.now }
    ensures found { IsTrue result → HasEarlier edges.now b }
    ensures none { IsFalse result → IsNewAmong edges.now numbers.now b }
{
    let edge = edges[b];
    for number in numbers {
        let other = *number as usize - 1;
        if other < b && join_same(edges[other], edge) {
            return true;
        }
    }
    false
}

fn join_same(a: Edge, b: Edge) -> bool
    ensures { IsTrue result ↔ HasEnds a b.first b.second }
{
    a.first == b.first && a.second == b.second || a.first == b.second && a.second == b.first
}

/// The first of so many atoms that has too many bonds.
pub fn first_crowded_atom(near: &Neighbours, atoms: u32) -> Option<u32>
    requires { length near.now ≡ atoms }
    ensures { FindsLeast (OfItem (λ numbers. length numbers ≤ 20) near.now) result }
{
    for i in 0..atoms {
        if near.at(i + 1).len() > MOST_BONDS {
            return Some(i + 1);
        }
    }
    None
}
