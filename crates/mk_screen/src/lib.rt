//! Screens: sixteen counts and 512 bits of a molecule, and what a graph needs of them.
//!
//! Callers use one promise. Where a graph has a hit in a molecule, the molecule's screen covers the
//! graph's need (`ScreeningLosesNoHit` in mk_model's `specs/Screens.antt`). So a molecule whose
//! screen doesn't cover a need isn't searched.
//!
//! What a screen counts, and which bit a path sets, stands there too. How molecules are found by
//! their bits is left to mk_index.
#![tactic(auto)]

mod counts;
mod covering;
mod drawn;
mod laws;
mod marks;
mod paths;
mod taking;

pub use covering::{covers, is_covered};
pub use laws::screening_loses_no_hit;
pub use mk_model::{Graph, Mol, Screen, Steps};
pub use taking::{need_of, screen_of};
