//! Filled molecules: the molecule that a table means, or the first check that the table fails.
//!
//! Callers use one promise. `prepare` gives the filled molecule of a table that passes the seven
//! checks (`IsFilled` in `specs/Filled.antt`), and else exactly the first check that fails with its
//! least item (`IsFirstMoleculeFault` in `specs/FirstFault.antt`, over the demands of
//! `specs/Checks.antt`).
//! A table that passes keeps its text (`passing_table_keeps_its_text`), and no table has two first
//! faults or two filled molecules (`specs/Laws.antt`).
//!
//! How a table is read is left to mk_tables, how many hydrogens an atom gains to mk_valence, and
//! which bonds are ring bonds or aromatic to mk_rings.
#![tactic(auto)]

mod atom_checks;
mod bond_checks;
mod checking;
mod fault;
mod filling;
mod hydrogen_filling;
mod laws;
mod preparing;
mod property_checks;
mod written_atoms;

pub use fault::PrepareFault;
pub use laws::{one_filled_molecule, one_first_fault, passing_table_keeps_its_text};
pub use mk_text::Memory;
pub use preparing::prepare;
