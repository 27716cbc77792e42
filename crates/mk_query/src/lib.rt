//! Queries: from the tables of a query file to the query that they mean, or to the first check that
//! they fail.
//!
//! Callers use `compile`. It gives exactly the query of a raw query (`IsQueryOf`), which passes
//! every check (`PassChecks`), or exactly its first fault: a check, a table and an item
//! (`IsFirstCompileFault`). What it asks for stands in `specs/InRange.antt`, and each raw query
//! that is read is such.
//!
//! The meaning stands in these files of `specs`, to be read in this order:
//! - Drawn: what a table draws at its atoms;
//! - FirstFault: the ten checks of one table in their order, over what Checks, SiteChecks and
//!   LinkChecks demand;
//! - Compiled: the query of a raw query;
//! - CompileFaults: the checks across tables, and the first fault;
//! - Laws: a raw query has one query and one first fault at most, and a query that passes keeps what
//!   every query keeps.
//!
//! All other files there serve the code alone. The checks are told in docs/FORMAT.md, "The checks
//! of a query".
//!
//! What any table has to keep stands in mk_tables. Which molecules a query finds isn't said here.
#![tactic(auto)]

mod atom_checks;
mod atom_kinds;
mod atom_marks;
mod atom_tests;
mod blocks;
mod bond_checks;
mod bonded;
mod checking;
mod compile_fault;
mod compiling;
mod draft;
mod drawn;
mod drawn_bonds;
mod element_kinds;
mod laws;
mod linked_atoms;
mod links;
mod list_places;
mod lists;
mod logic_lines;
mod notes;
mod orders;
mod own_sizes;
mod point_fits;
mod points;
mod property_checks;
mod query_groups;
mod recursion;
mod root_sizes;
mod site_orders;
mod sites;
mod table_walk;
mod template_points;
mod template_slots;
mod templates;
mod values;
mod whole_checks;

pub use compile_fault::CompileFault;
pub use compiling::compile;
pub use laws::{
    fault_or_query, kept_text_is_the_query, one_first_fault, one_query, passed_queries_fit,
};
pub use mk_text::Memory;
