// An atom's place in a spanning forest.

/// The atom above, the place of the bond to it, the number of atoms above, and the atom at the top,
/// which is 0 as long as the atom wasn't reached.
#[derive(Clone, Copy, Debug, PartialEq, Eq)]
pub struct Node {
    pub parent: u32,
    pub via: u32,
    pub depth: u32,
    pub root: u32,
}
