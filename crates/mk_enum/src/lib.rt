//! The structures that a query stands for, written as an SDfile, a page at a time.
//!
//! Callers use one promise. `structures` gives the first valid codes from a place on of which the
//! expansion is writable, in rising order, with the text of their structures and the place behind
//! them (`IsEnumeration` in `specs/Enumerations.antt`). A graph is writable where no end is free
//! and its bonds are few (`IsWritable` in `specs/Writable.antt`); `table_of` gives its table
//! (`IsTableOf` in `specs/StructureTables.antt`).
//!
//! The text is an SDfile, and the table of each structure, as a query without groups, passes every
//! check and has that structure as its one expansion: the laws in `laws`.
//!
//! How codes are found is left to mk_choice, what they make of a query to mk_expand, and how a
//! table is spelt to mk_tables.
#![tactic(auto)]

mod atoms;
mod entries;
mod enumeration;
mod laws;
mod limits;
mod listed;
mod tables;
mod texts;

pub use enumeration::structures;
pub use laws::{structures_are_an_sdfile, structures_are_read_back};
pub use limits::writable;
pub use listed::Structures;
pub use mk_model::{Graph, Keys, Memory, Place, Query};
pub use mk_tables::RawTable;
pub use tables::table_of;
pub use texts::put_numbers;
