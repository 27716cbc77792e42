// Bonds with the numbers of those at each atom.
ghost use Rattle.std.specs.Prelude.{◌≡◌, ◌≤◌, IfOk, length};
ghost use Rattle.mk_model.specs.Edges.{AreBetween, rows_of};
ghost use Rattle.mk_model.specs.Templates.{query_edges};
ghost use Rattle.mk_query.specs.BlockSearch.{AreNumbersOf};

use crate::drawn_bonds::edges_of;
use mk_model::{Neighbours, QueryBond};
use mk_text::Memory;
use std::alloc::Global;

/// The bonds between at most 999 atoms, and for each atom the numbers of its bonds.
#[derive(Drop)]
pub struct Bonded<'a> {
    pub atoms: u32,
    pub bonds: &'a [QueryBond],
    near: Neighbours,
    ghost few: { atoms ≤ 999 },
    ghost ends: { AreBetween atoms (query_edges bonds.now) },
    ghost size: { length near ≡ atoms },
    ghost rows: { near ≡ rows_of atoms (query_edges bonds.now) },
}

impl<'a> Bonded<'a> {
    pub fn of(alloc: Global, atoms: u32, bonds: &'a [QueryBond]) -> Result<Bonded<'a>, Memory>
        requires few { atoms ≤ 999 }
        requires few_bonds { length bonds.now ≤ 999 }
        requires ends { AreBetween atoms (query_edges bonds.now) }
        ensures atoms { IfOk result (λ bonded. bonded.atoms ≡ atoms) }
        ensures bonds { IfOk result (λ bonded. bonded.bonds.now ≡ bonds.now) }
    {
        let edges = edges_of(alloc, bonds)?;
        let near = Neighbours::of(alloc, atoms, &edges)?;
        Ok(Bonded { atoms, bonds, near })
    }

    /// The numbers of the bonds of atom y.
    pub fn numbers_of(&self, y: u32) -> &[u32]
        requires least { 1 ≤ y }
        requires most { y ≤ self.now.atoms }
        ensures { AreNumbersOf self.now.bonds.now y result.now }
    {
        self.near.at(y)
    }
}
