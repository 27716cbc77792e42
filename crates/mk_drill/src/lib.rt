//! The drill: molecules made by a generator, loaded, and searched page by page, with records
//! removed behind the first page.
//!
//! Callers use one promise. `drill` appends the one line of a start and a count (`IsDrill` in
//! `specs/Drill.antt`), over the molecules that the generator makes (`specs/Draws.antt`) and the
//! query of one file (`specs/DrillQuery.antt`). It tells in a moment, on any machine, whether
//! reading, filling, searching and removing give what they should, and how long they take.
//!
//! `drill_found` is what the command `drill` comes to (`IsDrillAnswer` in `specs/Answer.antt`).
//!
//! How files are read, what a molecule is and how keys are found is left to the crates below,
//! through their promises alone.
#![tactic(auto)]

mod answering;
mod draws;
mod drill_query;
mod drilled_records;
mod drilled_tables;
mod drilling;
mod hits;
mod laws;
mod line;

pub use answering::drill_found;
pub use drilling::drill;
pub use laws::one_drill;
pub use mk_text::Memory;
