//! That each definition has its value. It has no code: only laws, over definitions of the crates
//! below, that there is what they speak of.
#![tactic(auto)]

mod laws;

pub use laws::{drills_have_lines, edits_are_judged, tables_are_molecules};
