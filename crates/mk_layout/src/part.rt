// What templates and their slots become.
ghost use Rattle.std.specs.Prelude.{◌≡◌};

use mk_model::{GraphAtom, QueryBond};
use std::marker::Model;

/// What a template becomes: its atoms, its bonds in any order, and the atoms with attachment point
/// 1 and 2.
#[derive(Debug, Drop)]
pub struct Part {
    atoms: Vec<GraphAtom>,
    bonds: Vec<QueryBond>,
    points: Vec<u32>,
}

impl Model for Part {
    ghost use Rattle.mk_model.specs.Pieces.{Fragment};

    ghost Value = { Fragment };

    ghost view = { λ p. record { atoms = p.atoms.items; bonds = p.bonds.items; points = p.points.items } };
}

impl Part {
    ghost use Rattle.mk_model.specs.Pieces.{Fragment};

    /// Takes the lists over.
    pub fn of(atoms: Vec<GraphAtom>, bonds: Vec<QueryBond>, points: Vec<u32>) -> Part
        ensures { result ≡ record { atoms = atoms.items; bonds = bonds.items; points = points.items } }
    {
        Part {
            atoms,
            bonds,
            points,
        }
    }

    pub fn atoms(&self) -> &[GraphAtom]
        ensures { result.now ≡ self.now.atoms }
    {
        self.atoms.as_slice()
    }

    pub fn bonds(&self) -> &[QueryBond]
        ensures { result.now ≡ self.now.bonds }
    {
        self.bonds.as_slice()
    }

    pub fn points(&self) -> &[u32]
        ensures { result.now ≡ self.now.points }
    {
        self.points.as_slice()
    }

    /// Gives the atoms and the bonds.
    pub fn into_lists(self) -> (Vec<GraphAtom>, Vec<QueryBond>)
        ensures atoms { result.0.items ≡ self.atoms }
        ensures bonds { result.1.items ≡ self.bonds }
    {
        let Part {
            atoms,
            bonds,
            points: _,
        } = self;
        (atoms, bonds)
    }
}

/// What a slot becomes.
#[derive(Debug, Drop)]
pub enum Shape {
    /// So many copies of each atom that the slot takes.
    Copies(u32),
    /// What the member becomes.
    Member(Part),
    /// So many hydrogens.
    Hydrogens(u32),
    /// Free ends of the neighbours.
    Nothing,
}
