// Whether drawn bonds are those of a graph.
ghost use Rattle.std.specs.Prelude.{◌≡◌, ℕ, IsTrue};
ghost use Rattle.mk_model.specs.Edges.{AreBetween, IsSimple, Joins};

use mk_model::Edge;

/// The bonds are between the atoms, and no two join one pair.
pub fn is_graph(atoms: u32, bonds: &[Edge]) -> bool
    ensures { IsTrue result → IsSimple atoms bonds.now }
{
    are_between(atoms, bonds) && are_apart(bonds)
}

fn are_between(atoms: u32, bonds: &[Edge]) -> bool
    ensures { IsTrue result → AreBetween atoms bonds.now }
{
    for bond in bonds {
        if bond.first < 1 || bond.second < 1 {
            return false;
        }
        if bond.first > atoms || bond.second > atoms {
            return false;
        }
        if bond.first == bond.second {
            return false;
        }
    }
    true
}

fn are_apart(bonds: &[Edge]) -> bool
    ensures { IsTrue result → (b c x y : ℕ) → Joins bonds.now b x y → Joins bonds.now c x y → b ≡ c }
{
    for b in 0..bonds.len() {
        for c in 0..b {
            if bonds[b].is_same_pair(bonds[c]) {
                return false;
            }
        }
    }
    true
}
