//! The plain types that the crates above share, and what their parts mean.
//!
//! Callers use one promise: each of the types `Mol`, `Graph` and `Query` keeps in itself what makes
//! it one (`IsMolecule` in `specs/Molecules.antt`, `IsGraph` in `specs/Graphs.antt`, `QueryFits` in
//! `specs/QueryFits.antt`), and its readers give its parts exactly.
//!
//! Ring bonds are defined in `specs/Rings.antt`, the aromatic set in `specs/Aromatic.antt`, codes
//! and valid codes in `specs/Codes.antt` and `specs/Logic.antt`, what a query becomes by a code in
//! `specs/Expansions.antt`, hits in `specs/Hits.antt`, keys in `specs/Keys.antt`, and screens in
//! `specs/Screens.antt`. `Steps` counts calls in proofs and takes no bytes.
//!
//! How the marks of bonds are found is left to mk_rings, and how a table becomes a molecule or a
//! query to the crates above.
#![tactic(auto)]

mod atom_test;
mod bond_order;
mod code_laws;
mod edge;
mod edges;
mod elements;
mod graph;
mod group;
mod members;
mod molecule;
mod neighbours;
mod query;
mod screen;
mod steps;
mod template;
mod turn;

pub use atom_test::{AtomTest, Kind};
pub use bond_order::put_in_order;
pub use code_laws::{
    ahead_adds_up, codes_are_read_one_way, hydrogens_are_taken_once, no_code_begins_another,
    no_key_begins_another, occurrences_are_read_one_way, single_labels_are_as_before,
    valid_codes_are_listed,
};
pub use edge::Edge;
pub use edges::edges_of_graph;
pub use elements::Elements;
pub use graph::{Graph, GraphAtom, GraphBond};
pub use group::{Group, Interval, Range};
pub use mk_text::{Bytes, Listed, Memory, Numbers, Place, Text};
pub use molecule::{Atom, Mol, MolBond};
pub use neighbours::Neighbours;
pub use query::{Count, Query};
pub use screen::Screen;
pub use steps::Steps;
pub use template::{QueryBond, Slot, Template};
pub use turn::Turn;

/// What a query chooses at its slots: lengths and numbers of members.
pub type Code = Numbers;

/// The atoms of a molecule on which those of a graph lie, in order.
pub type Map = Numbers;

/// A record's number, a code and a map, one behind the other.
pub type Key = Numbers;

/// Keys, in order.
pub type Keys = Listed<Key>;
