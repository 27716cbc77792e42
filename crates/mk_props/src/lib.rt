//! Property lines: the lines of a connection table between its bonds and `M  END`, and that line
//! itself.
//!
//! Callers use one promise. `read_property` gives the property that a line is, and `Bad` exactly
//! where it is none (`IsProperty` in `specs/Property.antt`). The same is said by a function on
//! lists, `property_of` in `specs/Reading.antt`, and `property_is_exact` joins the two. The columns
//! are those of docs/FORMAT.md, "Property lines".
//!
//! What a property means for a molecule or a query isn't known here.
#![tactic(auto)]

mod columns;
mod entries;
mod fault;
mod laws;
mod lists;
mod logic;
mod property;
mod reading;
mod short_list;

pub use fault::LineFault;
pub use laws::property_is_exact;
pub use property::{
    AtomList, LinkEntry, Links, LogicLine, Pair, Pairs, Property, SiteOrder, Symbols,
};
pub use reading::read_property;
pub use short_list::ShortList;
