//! Runs of the top call over objects in memory, for what no run of the program shows. It serves
//! tests alone, and nothing stands on it.
//!
//! Each call of each object is failed in turn (`failure_tests`, `fault_tests`), tables are looked
//! at (`store_tests`), and the input that is left (`script_tests`). Sessions are held over an input
//! and an output that tell what was read and put (`talk_tests`). All other runs are rows of
//! checks/rows.
//!
//! What is promised of runs is proved in mk_session, mk_effects, mk_edits and mk_kept, and of
//! sessions in mk_talk.
#![tactic(auto)]

#[cfg(test)]
mod failure_tests;
#[cfg(test)]
mod fault_tests;
#[cfg(test)]
mod script_tests;
#[cfg(test)]
mod store_tests;
#[cfg(test)]
mod talk_tests;
#[cfg(test)]
mod test_files;
