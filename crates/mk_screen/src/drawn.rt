// What a screen is taken of: atoms with their elements, and bonds.
ghost use Rattle.std.specs.Prelude.{◌≡◌, ◌≢◌, ◌≤◌, ◌-◌, All, Some, length, slice_get, slice_index};
ghost use Rattle.mk_model.specs.Edges.{numbers_at};
ghost use Rattle.mk_model.specs.Screens.{named_element};
ghost use Rattle.mk_screen.specs.Paths.{end_at};

use mk_model::{Edge, Graph, Kind, Mol};

/// A molecule or a graph, as far as screens look at it.
pub trait Drawn {
    ghost use Rattle.mk_model.specs.Screens.{Shown};

    ghost shown: { Self → Shown };

    /// How many atoms there are.
    fn size(&self) -> u32
        ensures { result ≡ length (shown self.now).elements };

    /// How many bonds there are.
    fn bond_count(&self) -> u32
        ensures { result ≡ length (shown self.now).bonds };

    /// The element that atom n is of, or 0 where it is of no single one.
    fn element(&self, n: u32) -> u8
        requires least { 1 ≤ n }
        requires most { n ≤ length (shown self.now).elements }
        ensures element { result ≡ slice_index (shown self.now).elements (n - 1) }
        ensures few { result ≤ 118 };

    /// The bond of a number. Its ends are two atoms.
    fn edge(&self, number: u32) -> Edge
        requires least { 1 ≤ number }
        requires most { number ≤ length (shown self.now).bonds }
        ensures edge { slice_get (shown self.now).bonds (number - 1) ≡ Some result }
        ensures first { (1 ≤ result.first) × (result.first ≤ length (shown self.now).elements) }
        ensures second { (1 ≤ result.second) × (result.second ≤ length (shown self.now).elements) }
        ensures differ { result.first ≢ result.second };

    /// The numbers of the bonds of atom n.
    fn numbers(&self, n: u32) -> &[u32]
        requires least { 1 ≤ n }
        requires most { n ≤ length (shown self.now).elements }
        ensures numbers { result.now ≡ numbers_at (shown self.now).bonds n }
        ensures within { All (λ number. (1 ≤ number) × (number ≤ length (shown self.now).bonds)) result.now };
}

impl Drawn for Mol {
    ghost use Rattle.mk_model.specs.Screens.{shown_by_mol};

    ghost shown = { shown_by_mol };

    fn size(&self) -> u32 {
        self.atom_count()
    }

    fn bond_count(&self) -> u32 {
        self.bonds().len() as u32
    }

    fn element(&self, n: u32) -> u8 {
        self.atom(n).element
    }

    fn edge(&self, number: u32) -> Edge {
        self.bond(number).edge()
    }

    fn numbers(&self, n: u32) -> &[u32] {
        self.bonds_at(n)
    }
}

impl Drawn for Graph {
    ghost use Rattle.mk_model.specs.Screens.{shown_by_graph};

    ghost shown = { shown_by_graph };

    fn size(&self) -> u32 {
        self.atom_count()
    }

    fn bond_count(&self) -> u32 {
        // The place of a bond is a `u32`, since a graph has at most 512 atoms.
        self.bonds().len() as u32
    }

    fn element(&self, n: u32) -> u8 {
        named_element(&self.atoms()[n as usize - 1].test.kind)
    }

    fn edge(&self, number: u32) -> Edge {
        self.bond(number).edge()
    }

    fn numbers(&self, n: u32) -> &[u32] {
        self.bonds_at(n)
    }
}

// The element that a kind names alone, or 0 where it names none.
fn named_element(kind: &Kind) -> u8
    ensures { result ≡ named_element kind.now }
{
    match kind {
        Kind::Element(z) => *z,
        _ => 0,
    }
}

/// The other end of a bond, as seen from atom n.
pub fn end_of<D: Drawn>(drawn: &D, number: u32, n: u32) -> u32
    requires least { 1 ≤ number }
    requires most { number ≤ length (D.shown drawn.now).bonds }
    ensures end { result ≡ end_at (D.shown drawn.now).bonds number n }
    ensures first { 1 ≤ result }
    ensures last { result ≤ length (D.shown drawn.now).elements }
    ensures other { result ≢ n }
{
    let edge = drawn.edge(number);
    if edge.first == n {
        return edge.second;
    }
    edge.first
}
