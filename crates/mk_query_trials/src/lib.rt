//! Tests of what no run of the program shows: queries over a group without a member, screens and
//! postings, molecules as they are held; and a call of each that may want memory. It serves tests
//! alone, and nothing stands on it. What runs show of queries and records are rows of checks/rows.
//!
//! What is promised is proved in mk_query, mk_enum, mk_screen, mk_index, mk_mol and mk_library, whose
//! READMEs name the tests. They stand here since a crate with tests is proved twice.
#![tactic(auto)]

#[cfg(test)]
mod compile_tests;
#[cfg(test)]
mod library_tests;
#[cfg(test)]
mod molecule_tests;
#[cfg(test)]
mod screen_tests;
#[cfg(test)]
mod shelf_tests;
