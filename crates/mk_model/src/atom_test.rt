// What an atom of a query asks of an atom of a molecule.
ghost use Rattle.std.specs.Prelude.{◌≡◌, IfOk};
ghost use Rattle.mk_model.specs.Expansions.{anything};

use crate::elements::Elements;
use mk_text::Memory;
use std::alloc::Global;

/// The elements that an atom of a query takes.
#[derive(Debug, Drop)]
pub enum Kind {
    /// This element.
    Element(u8),
    /// One of these.
    OneOf(Elements),
    /// Any but hydrogen and these.
    NoneOf(Elements),
    /// Any but hydrogen: the symbol `A`.
    NotHydrogen,
    /// Any but carbon and hydrogen: the symbol `Q`.
    Hetero,
    /// Any: the symbol `*`.
    Anything,
}

impl Kind {
    /// A copy, which takes memory for a long list alone.
    pub fn copied(&self, alloc: Global) -> Result<Kind, Memory>
        ensures { IfOk result (λ copy. copy ≡ self.now) }
    {
        match self {
            Kind::Element(z) => Ok(Kind::Element(*z)),
            Kind::OneOf(list) => Ok(Kind::OneOf(list.copied(alloc)?)),
            Kind::NoneOf(list) => Ok(Kind::NoneOf(list.copied(alloc)?)),
            Kind::NotHydrogen => Ok(Kind::NotHydrogen),
            Kind::Hetero => Ok(Kind::Hetero),
            Kind::Anything => Ok(Kind::Anything),
        }
    }
}

/// The test of an atom of a query. 0 and false ask for nothing.
#[derive(Debug, Drop)]
pub struct AtomTest {
    pub kind: Kind,
    /// The charge, where it isn't 0.
    pub charge: i8,
    /// The radical, where it isn't 0: 1 singlet, 2 doublet, 3 triplet.
    pub radical: u8,
    /// 1 no hydrogens beside those drawn, n + 1 at least n more than are drawn.
    pub hydrogens: u8,
    /// -1 no ring bonds, -2 as many as are drawn, 2 or 3 so many, 4 four or more.
    pub ring_bonds: i8,
    /// -1 no neighbours but hydrogens, -2 as many as are drawn, 1 to 5 so many, 6 six or more.
    pub substitution: i8,
    /// A bond of type 2, 3 or 4, or in the aromatic set.
    pub unsaturated: bool,
}

impl AtomTest {
    /// The test that asks for the kind alone.
    pub fn of_kind(kind: Kind) -> AtomTest
        ensures { result ≡ record anything { kind = kind } }
    {
        AtomTest {
            kind,
            charge: 0,
            radical: 0,
            hydrogens: 0,
            ring_bonds: 0,
            substitution: 0,
            unsaturated: false,
        }
    }

    /// A copy, which takes memory for a long list alone.
    pub fn copied(&self, alloc: Global) -> Result<AtomTest, Memory>
        ensures { IfOk result (λ copy. copy ≡ self.now) }
    {
        Ok(AtomTest {
            kind: self.kind.copied(alloc)?,
            charge: self.charge,
            radical: self.radical,
            hydrogens: self.hydrogens,
            ring_bonds: self.ring_bonds,
            substitution: self.substitution,
            unsaturated: self.unsaturated,
        })
    }
}
