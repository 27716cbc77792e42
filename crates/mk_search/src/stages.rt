// Where a search of a shelf stands.
use mk_model::{Mol, Screen};

/// A row of the shelf: the number of a record, with its molecule and screen.
#[derive(Clone, Copy)]
pub struct Row<'a> {
    pub number: u32,
    pub mol: &'a Mol,
    pub screen: &'a Screen,
}

/// No record is open, and those from a number on are to come; a record is open; or nothing is to
/// come.
#[derive(Clone, Copy)]
pub enum Stage<'a> {
    From(u32),
    In(Row<'a>),
    Ended,
}

/// What a turn comes to: a key is taken out in a record; or none is, and the search is further on in
/// one; or nothing is to come.
#[derive(Clone, Copy)]
pub enum Came<'a> {
    Out(Row<'a>),
    On(Row<'a>),
    Nowhere,
}
