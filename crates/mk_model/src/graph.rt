// Graphs of queries that keep their conditions in their type.
ghost use Rattle.std.specs.Prelude.{◌≡◌, ◌≤◌, ◌<◌, ◌-◌, All, IfOk, Some, length, slice_get};

use crate::atom_test::AtomTest;
use crate::edge::Edge;
use crate::edges::edges_of_graph;
use crate::neighbours::Neighbours;
use mk_text::Memory;
use std::alloc::Global;
use std::marker::Model;

/// An atom of a graph: its test, and how many further neighbours it may have at its free ends.
#[derive(Debug, Drop)]
pub struct GraphAtom {
    pub test: AtomTest,
    pub free: u32,
}

/// A bond of a graph with its type and topology, and whether it is a ring bond and in the aromatic
/// set of the graph.
#[derive(Clone, Copy, Debug, PartialEq, Eq)]
pub struct GraphBond {
    pub first: u32,
    pub second: u32,
    pub kind: u8,
    pub topology: u8,
    pub ring: bool,
    pub aromatic: bool,
}

impl GraphBond {
    ghost use Rattle.mk_model.specs.Graphs.{graph_edge};

    /// Gives the bond without its test and marks.
    pub fn edge(self) -> Edge
        ensures { result ≡ graph_edge self }
    {
        Edge {
            first: self.first,
            second: self.second,
            kind: self.kind,
        }
    }
}

/// What is looked for in a molecule: atoms with their tests, and bonds. Atoms and bonds count from
/// 1.
#[derive(Debug, Drop)]
pub struct Graph {
    atoms: Vec<GraphAtom>,
    bonds: Vec<GraphBond>,
    neighbours: Neighbours,
}

impl Model for Graph {
    ghost use Rattle.mk_model.specs.Graphs.{GraphView, IsKeptGraph};

    ghost Value = { GraphView };

    ghost view = { λ g. record { atoms = g.atoms.items; bonds = g.bonds.items } };

    ghost invariant = { λ g. IsKeptGraph (record { atoms = g.atoms.items; bonds = g.bonds.items }) g.neighbours };
}

impl Graph {
    ghost use Rattle.mk_model.specs.Edges.{IsBetween, numbers_at, rows_of};
    ghost use Rattle.mk_model.specs.Graphs.{GraphView, IsGraph, graph_edge, graph_edges};

    /// Takes the lists over and adds the neighbour lists.
    pub fn of(alloc: Global, atoms: Vec<GraphAtom>, bonds: Vec<GraphBond>) -> Result<Graph, Memory>
        requires { IsGraph (record { atoms = atoms.items; bonds = bonds.items }) }
        ensures { IfOk result (λ graph. graph ≡ record { atoms = atoms.items; bonds = bonds.items }) }
    {
        let edges = edges_of_graph(alloc, bonds.as_slice())?;
        let neighbours = Neighbours::of(alloc, atoms.len() as u32, edges.as_slice())?;
        Ok(Graph::over(atoms, bonds, neighbours))
    }

    /// Takes the lists over, with the neighbour lists that were made of them. It takes no memory.
    pub fn over(atoms: Vec<GraphAtom>, bonds: Vec<GraphBond>, neighbours: Neighbours) -> Graph
        requires graph { IsGraph (record { atoms = atoms.items; bonds = bonds.items }) }
        requires rows { neighbours ≡ rows_of (length atoms.items) (graph_edges bonds.items) }
        ensures { result ≡ record { atoms = atoms.items; bonds = bonds.items } }
    {
        Graph {
            atoms,
            bonds,
            neighbours,
        }
    }

    pub fn atom_count(&self) -> u32
        ensures count { result ≡ length self.now.atoms }
        ensures few { result ≤ 512 }
        ensures kept { IsGraph self.now }
    {
        self.atoms.len() as u32
    }

    pub fn atoms(&self) -> &[GraphAtom]
        ensures list { result.now ≡ self.now.atoms }
        ensures kept { IsGraph self.now }
    {
        self.atoms.as_slice()
    }

    pub fn bonds(&self) -> &[GraphBond]
        ensures list { result.now ≡ self.now.bonds }
        ensures kept { IsGraph self.now }
    {
        self.bonds.as_slice()
    }

    /// Gives the bond of number n.
    pub fn bond(&self, n: u32) -> GraphBond
        requires least { 1 ≤ n }
        requires most { n ≤ length self.now.bonds }
        ensures bond { slice_get self.now.bonds (n - 1) ≡ Some result }
        ensures ends { IsBetween (length self.now.atoms) (graph_edge result) }
        ensures order { result.first < result.second }
    {
        self.bonds()[n as usize - 1]
    }

    /// Gives the numbers of the bonds of atom x, rising.
    pub fn bonds_at(&self, x: u32) -> &[u32]
        requires least { 1 ≤ x }
        requires most { x ≤ length self.now.atoms }
        ensures numbers { result.now ≡ numbers_at (graph_edges self.now.bonds) x }
        ensures within { All (λ number. (1 ≤ number) × (number ≤ length self.now.bonds)) result.now }
        ensures kept { IsGraph self.now }
    {
        self.neighbours.at(x)
    }
}
