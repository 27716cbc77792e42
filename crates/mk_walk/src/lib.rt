//! The walk through the atoms of one graph, in one molecule, with its look ahead.
//!
//! Callers use one promise: `may_hold` tells by some turns whether a molecule may have a hit
//! (`specs/Held.antt`). mk_match gives the hits themselves, by the `Search` that this crate makes
//! and goes on with (`specs/Search.antt`, `specs/SearchTurns.antt`).
//!
//! A walk goes through the graph's atoms in order, which is the order of the hits, and keeps its
//! place in flat lists. Before an image is taken, a look ahead asks whether any hit begins so: it
//! searches in an order of its own, and only its no is proved. So the walk never enters a part
//! without a hit, and going back is left to the order that is good at it. Which atom may lie on
//! which is asked once for each pair. That plain hydrogens are taken in order is asked as soon as
//! it can be told, so that orders of a methyl's aren't gone through. Codes and libraries aren't
//! known here, and begins aren't counted.
#![tactic(auto)]

mod candidates;
mod earlier_bonds;
mod free_hydrogens;
mod held;
mod hydrogens;
mod order;
mod outlook;
mod purse;
mod search;
mod table;
mod walk;

pub use held::may_hold;
pub use purse::pay;
pub use search::Search;
