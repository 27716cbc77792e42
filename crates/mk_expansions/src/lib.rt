//! The keys of one molecule by the expansions of a query, one at a time.
//!
//! Callers use one promise. `least_key_of` is the plain program on one molecule: the least key that
//! isn't below a place, or None where there is none (`IsOccurrence` in mk_model's
//! `specs/Keys.antt`). A search that goes faster takes what it has: where a place begins in a
//! molecule (`start`, `behind`, `specs/Starts.antt`), and an expansion with what it asks for and
//! needs, out of those that were made last (`expansion_by`, `Kept`, `keep`, `specs/Kept.antt`).
//!
//! How a search goes from code to code, and from record to record, stands in mk_search.
#![tactic(auto)]

mod expansions;
mod kept;
mod plain;
mod starts;

pub use expansions::{Expansion, expansion_by, may_hold};
pub use kept::{Kept, Plan, keep};
pub use mk_model::{Key, Memory};
pub use plain::least_key_of;
pub use starts::{behind, first_number, has_slots, is_below, rest_in, start};
