//! The valid codes of a query, in order, from a front or a place on.
//!
//! Callers use one promise: `least_code` gives the least valid code that isn't below a front, and
//! None exactly where there is none (`IsValid` in mk_model's `specs/Logic.antt`, `IsLeastFrom` in
//! mk_text's `specs/Rising.antt`). `Codes` gives the valid codes from a place on, one after
//! another, and its place (`specs/Codes.antt`).
//!
//! A search goes from the left, one number after another, along the front as long as it fits. What
//! is still to be chosen is one list of open slots: a number that fills a site puts the slots of
//! the member in front. A choice is dropped where some group can no longer be filled as often as
//! its range says; only that nothing is lost by this is proved. Expansions and molecules aren't
//! known here.
#![tactic(auto)]

mod bounds;
mod codes;
mod frames;
mod laws;
mod limits;
mod numbers;
mod outlook;
mod pending;
mod pruning;
mod slot_list;
mod together;
mod within;

pub use codes::{Codes, least_code};
pub use laws::{codes_are_taken_in_order, no_valid_code_begins_another};
pub use within::code_within;
