// What a turn of a search comes to.

/// What a turn comes to: the first item still to come is taken out; or none is, and the place is
/// further on; or none is to come.
#[derive(Clone, Copy)]
pub enum Turn {
    Item,
    Moved,
    End,
}
