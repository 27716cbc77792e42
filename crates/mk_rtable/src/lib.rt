//! The R-group table: for each record in which a query is found, which members stand at the root's
//! sites.
//!
//! Callers use one promise. `r_table` gives the row of each record that has a key, with the members
//! of the least code among the record's keys (`IsRGroupTable` in `specs/Table.antt`), and begins no search
//! behind that code (`BeginsOfTable` in `specs/Begins.antt`). `put_table` writes exactly the text of
//! a table (`table_text` in `specs/Text.antt`), and `members_of` says which members a code puts in
//! (`AreMembers` in `specs/Members.antt`).
//!
//! `table_found` is what the command `table` comes to (`IsTableAnswer` in `specs/Answer.antt`).
//!
//! How keys are found is left to mk_search, and what a code is stands in mk_model.
#![tactic(auto)]

mod answering;
mod members;
mod rows;
mod slots;
mod table;
mod text;

pub use answering::table_found;
pub use members::members_of;
pub use mk_model::{Memory, Numbers};
pub use rows::{TableRow, TableRows};
pub use table::r_table;
pub use text::put_table;
