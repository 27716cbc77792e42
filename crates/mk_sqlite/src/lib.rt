//! A keeper of tables in a SQLite file, which tells what it keeps.
//!
//! Callers use `SqlKeeper` as the `Keeper` of mk_outside that it is. While nobody else writes the
//! file and the disk returns what was written, it tells the tables that the database stands for
//! (`specs/Told.antt`), and its loads and commits do to them what the trait says. A crash leaves
//! the tables before a commit or after it, and a keeper over the files opened again tells those of
//! the last commit (`again`). A keeper whose file couldn't be opened is shut, tells nothing and
//! answers why to each call.
//!
//! How rows and places stand in a file is known here alone. What their bytes mean isn't.
#![tactic(auto)]

mod changes;
mod fails;
mod keeper;
mod laws;
mod opening;
mod places;
mod restart;
mod statements;
mod stored;

pub use keeper::SqlKeeper;
pub use laws::files_are_found_again;
pub use restart::{Rest, again};
