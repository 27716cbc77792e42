//! Where each atom of a template stands, once its slots have become pieces.
//!
//! What a template becomes is laid out in flat lists: for each atom the slot that takes it
//! (`blocks`) and how many atoms stand before it (`places`). Callers use one promise: a `Layout`,
//! which has both, says for each atom exactly the slot and the place that mk_model says
//! (`specs/Pieces.antt` there). By it the bonds of a template are written in one go (`bonds`), and
//! the atoms with attachment points (`atoms`).
//!
//! The modules serve mk_expand, which makes the graphs of codes and of open codes; no other crate
//! calls them. How a code is read, which atoms and free ends there are, and the marks of bonds are
//! left to it.
#![tactic(auto)]

pub mod atoms;
pub mod blocks;
pub mod bonds;
pub mod part;
pub mod piece;
pub mod places;
pub mod sites;
