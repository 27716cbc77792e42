// Molecules that keep their conditions in their type.
ghost use Rattle.std.specs.Prelude.{◌≡◌, ◌≤◌, ◌-◌, ◌↔◌, All, IfOk, Some, length, slice_get};

use crate::edge::Edge;
use crate::edges::{edges_of, find_bond};
use crate::neighbours::Neighbours;
use mk_text::Memory;
use std::alloc::Global;
use std::marker::Model;

/// An atom: its atomic number, its charge, and its radical as the tables write it.
#[derive(Clone, Copy, Debug, PartialEq, Eq)]
pub struct Atom {
    pub element: u8,
    pub charge: i8,
    pub radical: u8,
}

/// A bond with its type, and whether it is a ring bond and in the aromatic set.
#[derive(Clone, Copy, Debug, PartialEq, Eq)]
pub struct MolBond {
    pub first: u32,
    pub second: u32,
    pub kind: u8,
    pub ring: bool,
    pub aromatic: bool,
}

impl MolBond {
    ghost use Rattle.mk_model.specs.Molecules.{edge_of};

    /// Gives the bond without its marks.
    pub fn edge(self) -> Edge
        ensures { result ≡ edge_of self }
    {
        Edge {
            first: self.first,
            second: self.second,
            kind: self.kind,
        }
    }
}

/// A molecule: the written atoms first, then those that were added, and the bonds. Atoms and bonds
/// count from 1.
#[derive(Debug, Drop)]
pub struct Mol {
    atoms: Vec<Atom>,
    bonds: Vec<MolBond>,
    neighbours: Neighbours,
    written: u32,
}

impl Model for Mol {
    ghost use Rattle.mk_model.specs.Molecules.{IsKept, Molecule};

    ghost Value = { Molecule };

    ghost view = { λ m. record { written = m.written; atoms = m.atoms.items; bonds = m.bonds.items } };

    ghost invariant = { λ m. IsKept (record { written = m.written; atoms = m.atoms.items; bonds = m.bonds.items }) m.neighbours };
}

impl Mol {
    ghost use Rattle.mk_model.specs.Edges.{IsBetween, numbers_at, rows_of};
    ghost use Rattle.mk_model.specs.Molecules.{IsBondOf, IsElement, IsMolecule, Molecule, edge_of, edges};

    /// Takes the lists over and adds the neighbour lists.
    pub fn of(
        alloc: Global,
        written: u32,
        atoms: Vec<Atom>,
        bonds: Vec<MolBond>,
    ) -> Result<Mol, Memory>
        requires { IsMolecule (record { written = written; atoms = atoms.items; bonds = bonds.items }) }
        ensures { IfOk result (λ mol. mol ≡ record { written = written; atoms = atoms.items; bonds = bonds.items }) }
    {
        let edges = edges_of(alloc, bonds.as_slice())?;
        let neighbours = Neighbours::of(alloc, atoms.len() as u32, edges.as_slice())?;
        Ok(Mol::over(written, atoms, bonds, neighbours))
    }

    /// Takes the lists over, with the neighbour lists that were made of them. It takes no memory.
    pub fn over(written: u32, atoms: Vec<Atom>, bonds: Vec<MolBond>, neighbours: Neighbours) -> Mol
        requires molecule { IsMolecule (record { written = written; atoms = atoms.items; bonds = bonds.items }) }
        requires rows { neighbours ≡ rows_of (length atoms.items) (edges bonds.items) }
        ensures { result ≡ record { written = written; atoms = atoms.items; bonds = bonds.items } }
    {
        Mol {
            atoms,
            bonds,
            neighbours,
            written,
        }
    }

    pub fn atom_count(&self) -> u32
        ensures { result ≡ length self.now.atoms }
    {
        self.atoms.len() as u32
    }

    pub fn written(&self) -> u32
        ensures number { result ≡ self.now.written }
        ensures least { result ≤ length self.now.atoms }
    {
        self.written
    }

    pub fn atom(&self, n: u32) -> Atom
        requires least { 1 ≤ n }
        requires most { n ≤ length self.now.atoms }
        ensures atom { slice_get self.now.atoms (n - 1) ≡ Some result }
        ensures element { IsElement result.element }
    {
        self.atoms[n as usize - 1]
    }

    pub fn atoms(&self) -> &[Atom]
        ensures list { result.now ≡ self.now.atoms }
        ensures kept { IsMolecule self.now }
    {
        self.atoms.as_slice()
    }

    pub fn bonds(&self) -> &[MolBond]
        ensures list { result.now ≡ self.now.bonds }
        ensures kept { IsMolecule self.now }
    {
        self.bonds.as_slice()
    }

    /// Gives the bond of number n.
    pub fn bond(&self, n: u32) -> MolBond
        requires least { 1 ≤ n }
        requires most { n ≤ length self.now.bonds }
        ensures bond { slice_get self.now.bonds (n - 1) ≡ Some result }
        ensures ends { IsBetween (length self.now.atoms) (edge_of result) }
    {
        self.bonds()[n as usize - 1]
    }

    /// Gives the numbers of the bonds of atom n, rising.
    pub fn bonds_at(&self, n: u32) -> &[u32]
        requires least { 1 ≤ n }
        requires most { n ≤ length self.now.atoms }
        ensures numbers { result.now ≡ numbers_at (edges self.now.bonds) n }
        ensures within { All (λ number. (1 ≤ number) × (number ≤ length self.now.bonds)) result.now }
        ensures kept { IsMolecule self.now }
    {
        self.neighbours.at(n)
    }

    /// Gives the bond between two atoms, in either order of its ends.
    pub fn bond_between(&self, a: u32, b: u32) -> Option<MolBond>
        requires first_least { 1 ≤ a }
        requires first_most { a ≤ length self.now.atoms }
        requires second_least { 1 ≤ b }
        requires second_most { b ≤ length self.now.atoms }
        ensures { (bond : MolBond) → (result ≡ Some bond) ↔ IsBondOf self.now a b bond }
    {
        let numbers = self.bonds_at(a);
        find_bond(self.bonds(), numbers, a, b)
    }
}
