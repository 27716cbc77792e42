//! Keepers over disks in memory that stop after so many calls, and are opened again. It serves
//! tests alone, and nothing of the program stands on it.
//!
//! A test says what is done with a keeper (`Task`). It is told how much of it came about and which
//! files were left (`count_in`), what came of it once files take calls again (`done_again`), or what
//! a second task read of a keeper that was opened again (`done_twice_in`). That the functions return
//! is proved. What a stopped disk leaves is promised in mk_sqlite.
#![tactic(auto)]

mod disks;
mod tasks;

pub use disks::files;
pub use tasks::{Done, Task, count_in, done_again, done_twice_in};
