//! Molecules, graphs and files for tests. It serves tests alone.
//!
//! Most tests draw by a text, as `C O C | 1-2 2-3`: `mol_of_sketch` gives its molecule,
//! `graph_of_sketch` its graph, and `molfile_of_sketch`, `rgfile_of_sketches` and `table_of_sketch`
//! what a file holds of it. The shorthand stands in docs/TESTING.md, "Tables of tests". `mol_of`
//! and `graph_of` build a molecule and a graph of lists. The marks of bonds are found here.
//!
//! What can't be built is a failure of the test that asks for it.
#![tactic(auto)]

mod building;
mod checks;
mod files;
mod links;
mod queries;
mod sketches;
mod words;

pub use building::{graph_of, mol_of};
pub use checks::is_graph;
pub use files::{molfile_of_sketch, put_block, rgfile_of_sketches, table_of_sketch};
pub use links::query_of_link_and_site;
pub use queries::query_of_two_sites;
pub use sketches::{
    asked_atoms, asked_bonds, bonds_of_sketch, elements_of, graph_of_sketch, mol_of_sketch,
};
