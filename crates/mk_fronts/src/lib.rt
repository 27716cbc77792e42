//! Fronts of codes that a molecule can't hold.
//!
//! A search that goes through the codes of a query asks `Fronts` before it expands a code. Callers
//! use one promise: where `passed` gives a number, no occurrence of the query in the molecule begins
//! with so many numbers of the code (`HoldsNone` in mk_open_codes' `specs/Fronts.antt`), so that the
//! search goes on behind all codes that begin so.
//!
//! What is asked is the graph of an open code, which all codes that complete it have in common. These
//! graphs are kept over molecules, and what is told of one molecule is forgotten by `restart`. How
//! codes are found, and what becomes of those that aren't passed over, isn't known here.
#![tactic(auto)]

mod asks;
mod choices;
mod fronts;
mod known;
mod stores;
mod told;

pub use fronts::Fronts;
