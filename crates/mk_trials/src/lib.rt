//! Tests of calls below the program, of crates that the compiler of queries stands beside. It serves
//! tests alone, and nothing stands on it.
//!
//! Each call that may answer `Memory` is called with ample memory, and places that no run comes to
//! are gone to. What hits, codes and expansions are is compared on the built program, by checks/plain
//! and checks/codes. A drawn query is read and compiled as one of a file (`drawn_queries`).
//!
//! The tests are those of mk_fixtures, mk_counts, mk_walk, mk_match, mk_logic, mk_choice, mk_expand,
//! mk_open_codes, mk_fronts, mk_expansions, mk_search, mk_rtable and mk_drill, since a crate
//! with tests is proved twice.
#![tactic(auto)]

#[cfg(test)]
mod choice_tests;
#[cfg(test)]
mod drawn_queries;
#[cfg(test)]
mod drill_tests;
#[cfg(test)]
mod expand_tests;
#[cfg(test)]
mod key_tests;
#[cfg(test)]
mod logic_tests;
#[cfg(test)]
mod match_tests;
#[cfg(test)]
mod open_tests;
#[cfg(test)]
mod search_tests;
#[cfg(test)]
mod sketch_tests;
#[cfg(test)]
mod table_tests;
