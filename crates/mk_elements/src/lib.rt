//! The elements: their symbols and their valences.
//!
//! Callers use one promise of each table. `number_of` gives the element that bytes name and None
//! exactly where they name none (`NamesElement` in `specs/Symbols.antt`), `symbol_of` gives the
//! symbol of an element, and `valences` the row of an element and a charge
//! (`specs/Valences.antt`).
//!
//! What a valence means for an atom's hydrogens is said in mk_valence.
#![tactic(auto)]

mod rows;
mod symbols;

pub use rows::valences;
pub use symbols::{number_of, symbol_of};
