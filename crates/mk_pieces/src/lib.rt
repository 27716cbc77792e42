//! Laws of expansions: what a query becomes by a code. There is no code here but that of laws.
//!
//! Callers use one promise. `expansion_is_as_named` says of each expansion, as mk_model defines it,
//! that its atoms are those that have a name, in the order of names, and that bonds join them as the
//! drawings do (`specs/Names.antt`). A name is the way to an atom: copy j of an atom, an atom of the
//! member at a site, a hydrogen at a site.
//!
//! Beside it stand that each code has one expansion, and what every expansion keeps. The graph
//! itself is made in mk_layout and mk_expand, which rest on the lemmas here
//! (`proofs/ForCallers.antt`).
#![tactic(auto)]

mod laws;

pub use laws::{
    code_and_hit_are_short, expansion_is_as_named, one_expansion, single_links_stay_as_drawn,
    template_is_its_own_expansion,
};
