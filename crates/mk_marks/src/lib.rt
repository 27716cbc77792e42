//! Laws of marks: each list of bonds has its marks, and one list of marks alone. There is no code
//! here but that of laws.
//!
//! Callers use two promises. `bonds_have_marks` says that each simple list of edges has ring marks
//! and aromatic marks by the definitions of mk_model (`specs/Rings.antt` and `specs/Aromatic.antt`
//! there), and one list of each, and `marks_determine_bonds` that bonds of a molecule or of a graph
//! are determined by what they are without their marks (`specs/Laws.antt`).
//!
//! How marks are computed isn't known here: mk_rings does that, and rests on the lemmas here.
#![tactic(auto)]

mod laws;

pub use laws::{bonds_have_marks, marks_determine_bonds};
