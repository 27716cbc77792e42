// Templates: the tables of a query, with the places where a code chooses.
ghost use Rattle.std.specs.Prelude.{◌≡◌};

use crate::atom_test::AtomTest;
use mk_text::Numbers;
use std::marker::Model;

/// A bond of a query: 1 to 4 the types, 5 single or double, 6 single or aromatic, 7 double or
/// aromatic, 8 any; topology 0 either, 1 a ring bond, 2 another.
#[derive(Clone, Copy, Debug)]
pub struct QueryBond {
    pub first: u32,
    pub second: u32,
    pub kind: u8,
    pub topology: u8,
}

/// An atom of a template at which a code chooses.
#[derive(Debug, Drop)]
pub enum Slot {
    /// An atom that stands 1 to `most` times: its bond to `from` is at the first copy, that to `to`
    /// at the last.
    Link {
        atom: u32,
        most: u32,
        from: u32,
        to: u32,
    },
    /// A place for a member of one of its groups, which are its labels. Its neighbours in order;
    /// `second` is 0 where it has one.
    Site {
        atom: u32,
        groups: Numbers,
        first: u32,
        second: u32,
    },
}

impl Slot {
    ghost use Rattle.mk_model.specs.Labels.{site_labels};

    /// Gives the labels of a site, the numbers of its groups. A link has none.
    pub fn labels(&self) -> &[u32]
        ensures { result.now ≡ site_labels self.now }
    {
        match self {
            Slot::Link { .. } => &[],
            Slot::Site { groups, .. } => groups.as_slice(),
        }
    }
}

/// A table of a query: its atoms, bonds and slots, and the atoms by which it is joined on. Atoms
/// and bonds count from 1.
#[derive(Debug, Drop)]
pub struct Template {
    atoms: Vec<AtomTest>,
    bonds: Vec<QueryBond>,
    slots: Vec<Slot>,
    points: Numbers,
}

impl Model for Template {
    ghost use Rattle.mk_model.specs.Templates.{TemplateView};

    ghost Value = { TemplateView };

    ghost view = { λ t. record { atoms = t.atoms.items; bonds = t.bonds.items; slots = t.slots.items; points = t.points } };
}

impl Template {
    ghost use Rattle.mk_model.specs.Templates.{TemplateView};

    /// Takes the lists over. It takes no memory.
    pub fn of(
        atoms: Vec<AtomTest>,
        bonds: Vec<QueryBond>,
        slots: Vec<Slot>,
        points: Numbers,
    ) -> Template
        ensures { result ≡ record { atoms = atoms.items; bonds = bonds.items; slots = slots.items; points = points } }
    {
        Template {
            atoms,
            bonds,
            slots,
            points,
        }
    }

    pub fn atoms(&self) -> &[AtomTest]
        ensures { result.now ≡ self.now.atoms }
    {
        self.atoms.as_slice()
    }

    pub fn bonds(&self) -> &[QueryBond]
        ensures { result.now ≡ self.now.bonds }
    {
        self.bonds.as_slice()
    }

    /// Gives the slots by rising atom.
    pub fn slots(&self) -> &[Slot]
        ensures { result.now ≡ self.now.slots }
    {
        self.slots.as_slice()
    }

    /// Gives the atoms with attachment point 1 and 2.
    pub fn points(&self) -> &[u32]
        ensures { result.now ≡ self.now.points }
    {
        self.points.as_slice()
    }
}
