//! What `match`, `search`, `resume` and `enum` come to. It is found before anything is changed: a
//! refusal with its line, or an answer and the changes that it makes.
//!
//! Callers use one promise for each command, that of `match_found`, `search_found` and the others:
//! the effect is exactly that of the command on the tables (`IsMatch` in `specs/Match.antt`,
//! `IsSearch` in `specs/Searching.antt`, and so on), and the change that it makes fits.
//!
//! What the commands that edit and list come to stands in `mk_edits` and `mk_query_edits`, and what
//! a file holds is judged in `mk_found`. It knows no words of a command, commits nothing and writes
//! nothing: see `mk_session`. It reads no columns: see `mk_tables`.
#![tactic(auto)]

mod hit_lines;
mod matching;
mod searching;
mod structures;

pub use hit_lines::Stop;
pub use matching::match_found;
pub use mk_text::Memory;
pub use searching::{resume_found, search_found};
pub use structures::enum_found;
