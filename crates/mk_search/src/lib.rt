//! Keys: where a query is found in the molecules of a shelf, page by page.
//!
//! Callers use one promise. `page` gives the first so many keys that aren't below a place, in
//! rising order, and the place behind them (`IsPage` in `specs/Pages.antt`). What a key is stands
//! in mk_model's `specs/Keys.antt`, and the order in mk_text's `specs/Rising.antt`. `least_hit`
//! gives the least of them, and `least_key_of`, which mk_expansions makes, is the plain program on one
//! molecule.
//!
//! A page is a loop over `Hits`, which goes from record to record, from code to code and from hit to
//! hit. The matcher of a code stays open from key to key, and one `Codes` is rewound from record to
//! record. The expansions that were made last are kept for the next record. A molecule isn't searched
//! where its screen doesn't cover what an expansion needs, or where it has too few atoms of an
//! element. All codes that begin with numbers that the molecule can't hold are passed over at once.
//!
//! How codes, expansions and hits are found is left to mk_choice, mk_expand and mk_match, and which
//! numbers a molecule can't hold to mk_fronts.
#![tactic(auto)]

mod finding;
mod hits;
mod laws;
mod needs;
mod occurrences;
mod paced;
mod pacing;
mod pages;
mod paging;
mod passing;
mod records;
mod stages;
mod turns;

pub use hits::Hits;
pub use laws::{
    keys_are_listed, keys_are_short, no_held_key_begins_another, nothing_is_behind_a_key,
    one_page_from_a_place, paced_and_others_are_all, paced_pages_add_up, paced_pages_are_there,
    page_and_others_are_all, page_and_others_are_listed, places_are_short,
};
pub use mk_expansions::least_key_of;
pub use mk_model::{Key, Keys, Memory, Place};
pub use paced::{Paced, Stop};
pub use pacing::page_within;
pub use pages::Page;
pub use paging::{least_hit, page};
