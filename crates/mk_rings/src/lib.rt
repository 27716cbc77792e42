//! Ring bonds and the aromatic set, computed.
//!
//! Callers use two promises. `ring_bonds` marks exactly the ring bonds, and `aromatic_bonds`
//! exactly the bonds of the aromatic set, by the definitions of mk_model (`specs/Rings.antt` and
//! `specs/Aromatic.antt` there).
//!
//! Ring bonds are found on a spanning forest: a bond that isn't in it is a ring bond, and so are
//! the bonds of the forest on the way between its ends (`specs/Forests.antt`). The time is that of
//! the bonds, and for each closed ring that of the way round it.
//!
//! Six-rings are looked for from both sides. For each atom those that reach it over two bonds and
//! over three are stamped once, and a path from the other end goes on only to stamped atoms
//! (`reach`, `six_rings`). Before that short searches, whose finds are checked, mark whole rings
//! (`ring_search`, `spreading`), so that few rounds over the bonds without a mark are left
//! (`rounds`).
//!
//! Which molecule the bonds come from isn't known here.
#![tactic(auto)]

mod aromatic;
mod forest;
mod graphs;
mod marking;
mod molecules;
mod node;
mod reach;
mod ring_search;
mod rounds;
mod six_rings;
mod spreading;
mod steps;

pub use aromatic::aromatic_bonds;
pub use graphs::marked_graph;
pub use marking::ring_bonds;
pub use mk_marks::{bonds_have_marks, marks_determine_bonds};
pub use molecules::marked_bonds;
