// A bond as the definitions of rings see it.
ghost use Rattle.std.specs.Prelude.{◌≡◌, ◌↔◌, IsTrue};

/// A bond between two atoms, which count from 1, and its type.
#[derive(Clone, Copy, Debug)]
pub struct Edge {
    pub first: u32,
    pub second: u32,
    pub kind: u8,
}

impl Edge {
    ghost use Rattle.mk_model.specs.Edges.{HasEnds, IsEdgeBefore, other_end, touches};

    /// Tells whether the ends are a and b, in either order.
    pub fn has_ends(self, a: u32, b: u32) -> bool
        ensures { IsTrue result ↔ HasEnds self a b }
    {
        self.first == a && self.second == b || self.first == b && self.second == a
    }

    /// Tells whether both bonds join one pair of atoms.
    pub fn is_same_pair(self, other: Edge) -> bool
        ensures { IsTrue result ↔ HasEnds self other.first other.second }
    {
        self.has_ends(other.first, other.second)
    }

    /// Tells whether the bond stands before another: its first end is lower, or the same and its
    /// second end lower.
    pub fn is_before(self, other: Edge) -> bool
        ensures { IsTrue result ↔ IsEdgeBefore self other }
    {
        self.first < other.first || self.first == other.first && self.second < other.second
    }

    /// Gives the end that isn't atom n.
    pub fn other_end(self, n: u32) -> u32
        ensures end { result ≡ other_end n self }
        ensures ends { IsTrue (touches n self) → HasEnds self n result }
    {
        if self.first == n {
            self.second
        } else {
            self.first
        }
    }
}
