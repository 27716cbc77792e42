//! What the commands that edit and list records come to: `load`, `replace`, `remove`, `show` and
//! `list`. It is found before anything is changed: a refusal with its line, or an answer and the
//! changes that it makes.
//!
//! Callers use one promise for each command, that of `load_found`, `show_found` and the others: the
//! effect is exactly that of the command on the tables (`IsLoad` in `specs/Loading.antt`, `IsShow`
//! in `specs/Records.antt`, and so on), and the change that it makes fits.
//!
//! What a file holds is judged in `mk_found`, and what edits queries stands in `mk_query_edits`. It
//! searches nothing: see `mk_effects`. It knows no words of a command, commits nothing and writes
//! nothing: see `mk_session`. It reads no columns: see `mk_tables`.
#![tactic(auto)]

mod loading;
mod records;

pub use loading::{load_found, replace_found};
pub use mk_text::Memory;
pub use records::{list_found, remove_found, show_found};
