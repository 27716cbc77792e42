//! The shelf: molecules by the numbers of their records, with their screens and postings.
//!
//! Callers use one promise. `next_candidate` gives the least number that is held, from one on,
//! whose screen covers a need, and looks at no screen that lacks a bit of it (`IsNextCandidate` and
//! `LooksFor` in `specs/Postings.antt`). The screens and the postings are those of the molecules
//! that are held, whatever was put in, replaced and taken out.
//!
//! The postings stand as columns of bits: for each 64 rows and each of 512 bits one word, which
//! tells which of the rows have the bit. What a screen is stands in mk_model. Rows by number are
//! left to mk_rows, texts and records to mk_library.
#![tactic(auto)]

mod columns;
mod looking;
mod posted;
mod screens;
mod shelf;
mod words;

pub use mk_model::Mol;
pub use mk_screen::{Screen, need_of};
pub use mk_text::Memory;
pub use shelf::Shelf;
