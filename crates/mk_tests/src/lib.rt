//! The tests that a query puts: what its atoms and its bonds ask of those of a molecule.
//!
//! Callers use two promises. `atom_fits` tells whether an atom of a graph accepts an atom of a
//! molecule, and `bond_fits` whether a bond of the molecule joins two atoms and meets the test of a
//! bond of the graph, by the definitions of mk_model (`specs/Fitting.antt` and `specs/Tests.antt`
//! there). Beside them stand what the kind of an atom takes, and whether it is hydrogen alone.
//!
//! Neither takes memory, and neither looks at more than the bonds of one atom on each side. Counts
//! are made only where their column asks for them. Which atoms are tried is left to the matcher.
//! The crate is named for these tests of a query, and not for tests of a program.
#![tactic(auto)]

mod atoms;
mod bonds;
mod columns;
mod counts;
mod kinds;

pub use atoms::atom_fits;
pub use bonds::bond_fits;
pub use kinds::{accepts_element, atom_numbered, is_drawn_as_hydrogen};
