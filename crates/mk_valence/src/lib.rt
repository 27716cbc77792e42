//! The hydrogens that an atom gains, by its bonds, its charge, its radical and its valence mark.
//!
//! Callers use one promise: `hydrogens` gives the number of the rule (`added_hydrogens` in
//! `specs/Hydrogens.antt`). The valences of an element stand in mk_elements.
//!
//! Which atoms are asked for, and where the hydrogens go, is left to the crates above.
#![tactic(auto)]

mod gains;

pub use gains::hydrogens;
