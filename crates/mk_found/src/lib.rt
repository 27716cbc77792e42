//! What a command may come to, and what the files that it names hold, found before anything is
//! changed.
//!
//! `Found` is what a command comes to: a refusal with its line, or an answer and the edit that it
//! makes (`effect_of` in `specs/Findings.antt`). `read_within` reads a file within a limit.
//! `judge_query` says of a query's file that it is exactly one query, or refused with exactly one
//! line (`specs/QueryFiles.antt`), and `file_line` gives the line with which a molecules' file is
//! refused (`specs/MoleculeFiles.antt`).
//!
//! What each command comes to stands above, in `mk_edits`, `mk_query_edits`, `mk_effects`,
//! `mk_rtable` and `mk_drill`, which don't wait for each other.
#![tactic(auto)]

mod answers;
mod effect;
mod files;
mod lines;

pub use answers::long_molecules;
pub use effect::{Found, SessionEdit, StepFail};
pub use files::{HeldQuery, QUERY_BYTES, file_line, judge_query, read_within};
pub use lines::{named, no_query, put_numbered};
pub use mk_text::Memory;
