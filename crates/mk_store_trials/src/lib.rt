//! Tests of a store: a keeper over a file, over databases in memory, and over disks that stop. It
//! serves tests alone, and nothing stands on it.
//!
//! What is promised is proved in mk_sqlite, whose README names the tests. They stand here since a
//! crate with tests is proved twice.
#![tactic(auto)]

#[cfg(test)]
mod disk_tests;
#[cfg(test)]
mod keeper_tests;
