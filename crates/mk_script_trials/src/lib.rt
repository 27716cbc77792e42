//! A script over a store whose disks stop. It serves tests alone, and nothing stands on it.
//!
//! What is promised of a run over a store is proved in markush, whose README names the test. It
//! stands here since it waits for mk_session, and the tests of mk_store_trials don't.
#![tactic(auto)]

#[cfg(test)]
mod script_tests;
