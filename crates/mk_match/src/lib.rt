//! The hits of one graph in one molecule, in rising order, from a front or a place on.
//!
//! Callers use one promise: `least_map` gives the least hit that isn't below a front, and None
//! exactly where there is none (`IsHit` in mk_model's `specs/Hits.antt`, `IsLeastFrom` in mk_text's
//! `specs/Rising.antt`). `Maps` gives the hits from a place on, one after another, and its place
//! (`specs/Maps.antt`). Either ticks exactly one begin.
//!
//! Both go on with the search of mk_walk. `least_map` counts elements first, by mk_counts. What
//! these two tell of a graph and a molecule is handed on. Codes and libraries aren't known here.
#![tactic(auto)]

mod laws;
mod maps;

pub use laws::{hits_are_listed, hits_are_taken_in_order};
pub use maps::{Maps, least_map};
pub use mk_counts::{Asked, Counts, ElementCount, cannot_hold, counts_asked, counts_there};
pub use mk_walk::may_hold;
