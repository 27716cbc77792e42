//! How many atoms there are of each element: those that a graph asks for, and those that a molecule
//! has.
//!
//! Callers use one promise. `cannot_hold` says that there are too few atoms, or too few of an
//! element, and where it does there is no hit (`HasNoHit` in `specs/Counts.antt`). The counts are
//! taken once for a graph by `counts_asked`, and once for a molecule by `counts_there`
//! (`specs/Asked.antt`); `has_too_few` says the same of a graph and a molecule, with no memory for
//! their counts.
//!
//! Which atoms may lie on which, and whether there is a hit where there are enough, isn't known
//! here.
#![tactic(auto)]

mod asked;
mod counts;

pub use asked::{Asked, Counts, ElementCount, cannot_hold, counts_asked, counts_there};
pub use counts::has_too_few;
