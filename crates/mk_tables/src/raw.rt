// A table as it is written: the numbers of its columns, and nothing checked.
use mk_props::Property;
use mk_text::{Bytes, Listed};

/// An atom by its symbol and three of its columns. The charge is the column's number: 1 to 3 for +3
/// to +1, 5 to 7 for -1 to -3.
#[derive(Debug, Drop)]
pub struct RawAtom {
    pub symbol: Bytes,
    pub charge: i32,
    pub hydrogens: i32,
    pub valence: i32,
}

pub type RawAtoms = Listed<RawAtom>;

/// A bond between two atoms, which count from 1.
#[derive(Clone, Copy, Debug, PartialEq, Eq)]
pub struct RawBond {
    pub first: i32,
    pub second: i32,
    pub kind: i32,
    pub topology: i32,
}

pub type RawBonds = Listed<RawBond>;

/// The atomic numbers that an atom may have, or with `not` those that it may not have.
#[derive(Debug, Drop)]
pub struct RawList {
    pub atom: i32,
    pub not: bool,
    pub numbers: Signed,
}

pub type RawLists = Listed<RawList>;

/// A list of numbers with signs.
pub type Signed = Listed<i32>;

/// The properties of a table in the order of their lines, without the lines passed over and the
/// end.
pub type Properties = Listed<Property>;

/// What the lines of a table hold.
#[derive(Debug, Drop)]
pub struct RawTable {
    pub atoms: RawAtoms,
    pub bonds: RawBonds,
    pub lists: RawLists,
    pub props: Properties,
}
