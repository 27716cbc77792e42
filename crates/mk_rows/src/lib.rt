//! Items by rising number, each number once.
//!
//! Callers use one promise. An item is put under its number, replaced there or taken out, and no
//! other row is touched (`put_in_order`, `replaced` and `without` in `specs/Rows.antt`). A number is
//! looked up exactly, and the next one is the least that is held from one on.
//!
//! What the items are isn't known here. Lemmas for the crates above stand in
//! `proofs/ForCallers.antt`.
#![tactic(auto)]

mod by_number;

pub use by_number::{ByNumber, Numbered};
pub use mk_text::Memory;
