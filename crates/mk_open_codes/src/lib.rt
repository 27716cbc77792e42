//! Open codes: what all codes that begin alike have in common.
//!
//! An open code is a structural code in which slots may be left open. Callers use one promise: where
//! the graph of an open code has no embedding in a molecule, no code that completes the open code
//! has one (`NoHitNoCompletion` in `specs/Laws.antt`).
//!
//! Which numbers are an open code, and what its graph is, stands in mk_expand (`specs/OpenCodes.antt`
//! and `specs/OpenGraphs.antt` there), which makes the graph too. Which codes complete one stands in
//! `specs/Completions.antt`. What a search makes of it isn't known here.
#![tactic(auto)]

mod fronts;
mod laws;
mod places;
mod slots;

pub use fronts::{alone_code, front_code};
pub use laws::{
    alone_fronts_hold_none, completions_cover_its_need, completions_hold_the_open_graph,
    fronts_are_completed, fronts_are_passed_over, fronts_have_open_codes, fronts_hold_none,
    no_hit_no_completion, open_codes_are_read_one_way, root_need, slots_hold_none,
};
pub use places::root_places;
pub use slots::{choices_of, root_slots};
