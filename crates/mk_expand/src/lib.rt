//! Expansions: the graph that a query becomes by a structural code, and the graph of an open code.
//!
//! Callers use two promises. `expand` gives exactly the graph that `IsExpansion` of mk_model says
//! (`specs/Pieces.antt` and `specs/Expansions.antt` there): its atoms, in order, with their free
//! ends; its bonds, in order; and their marks, which are those of the graph itself. The rules are
//! told in docs/MEANING.md, "Expansions". `open_graph` gives exactly the graph of an open code, in
//! which slots may be left open (`IsOpenGraph` in `specs/OpenGraphs.antt`).
//!
//! There is one walk of a code and one builder. A structural code is an open code in which no slot is
//! left open, and what it makes of a template is the template's expansion (`codes_are_open_codes`);
//! so `expand` is a walk of an open code too. A code is read once from the left (`choosing`). Where
//! the atoms of a template stand says a `Layout` of mk_layout; by it atoms and their free ends are
//! written in one go (`joining`, `loose`), as mk_layout writes the bonds. Bonds are put in order and
//! get their marks once, for the whole.
//!
//! Which codes are valid isn't known here, nor is any molecule.
#![tactic(auto)]

mod bridges;
mod choosing;
mod expanding;
mod joining;
mod laws;
mod loose;
mod open_graphs;

pub use bridges::{aromatic_set_stays, no_ring_bond_leads_away, ring_bonds_stay};
pub use expanding::expand;
pub use laws::codes_are_open_codes;
pub use open_graphs::open_graph;
