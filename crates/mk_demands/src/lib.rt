//! What molecules and queries both ask of a connection table, and what its entries give.
//!
//! Callers use one promise of each call. `first_no_new_bond` and `first_crowded_atom` find exactly
//! the first bond that is no new one and the first atom with too many bonds, `edges_between` gives
//! the bonds as pairs of atoms (`specs/Bonds.antt`). `names_atoms`, `are_for_atoms`, `have_values`
//! and `has_known_values` judge the entries of a property line (`specs/Values.antt`), and
//! `charges_and_radicals` gives what the columns or the last entries say (`specs/Charges.antt`).
//!
//! How a table is read stands in mk_tables. Which check fails first, and what it is called, stands in
//! mk_mol and mk_query.
#![tactic(auto)]

mod bonds;
mod charges;
mod edges;
mod numbers;
mod values;

pub use bonds::{first_crowded_atom, first_no_new_bond};
pub use charges::{Electrons, charges_and_radicals};
pub use edges::{edges_between, has_two_ends};
pub use mk_text::Memory;
pub use numbers::{byte, is_atom, is_within, natural};
pub use values::{are_for_atoms, has_known_values, have_values, names_atoms};
