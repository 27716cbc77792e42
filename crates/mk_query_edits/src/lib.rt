//! What the commands that edit queries come to: `query` and `forget`. It is found before anything is
//! changed: a refusal with its line, or an answer and the changes that it makes.
//!
//! Callers use one promise for each command, that of `keep_found` and `forget_found`: the effect is
//! exactly that of the command on the tables (`IsKeep` and `IsForget` in `specs/Queries.antt`), and
//! the change that it makes fits.
//!
//! What a file holds is judged in `mk_found`, and what edits records stands in `mk_edits`, which
//! doesn't wait for this crate. It knows no words of a command, commits nothing and writes nothing:
//! see `mk_session`.
#![tactic(auto)]

mod queries;

pub use mk_text::Memory;
pub use queries::{forget_found, keep_found};
