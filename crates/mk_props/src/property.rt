// What property lines hold. Atoms count from 1; nothing is checked against a table here.
use crate::short_list::ShortList;
use mk_text::{Bytes, Listed};

/// An atom and a value for it.
#[derive(Clone, Copy, Debug, Default, PartialEq, Eq)]
pub struct Pair {
    pub atom: i32,
    pub value: i32,
}

/// A list of pairs. Up to two take no memory of their own.
pub type Pairs = ShortList<Pair, 2>;

/// A link atom, repeated 1 to `most` times between its neighbours `from` and `to`.
#[derive(Clone, Copy, Debug, Default, PartialEq, Eq)]
pub struct LinkEntry {
    pub atom: i32,
    pub most: i32,
    pub from: i32,
    pub to: i32,
}

/// A list of link entries. One takes no memory of its own.
pub type Links = ShortList<LinkEntry, 1>;

/// A list of symbols.
pub type Symbols = Listed<Bytes>;

/// The symbols that an atom may have, or with `not` those that it may not have.
#[derive(Debug, Drop)]
pub struct AtomList {
    pub atom: i32,
    pub not: bool,
    pub symbols: Symbols,
}

/// A site, and for each of its neighbours the place in their order.
#[derive(Debug, Drop)]
pub struct SiteOrder {
    pub atom: i32,
    pub entries: Pairs,
}

/// The logic of a group: the group that follows from it or 0, RestH, and the range of how often it
/// occurs.
#[derive(Debug, Drop)]
pub struct LogicLine {
    pub group: i32,
    pub then_group: i32,
    pub rest: i32,
    pub range: Bytes,
}

/// What a property line says.
#[derive(Debug, Drop)]
pub enum Property {
    Charge(Pairs),
    Radical(Pairs),
    Isotope(Pairs),
    RingBonds(Pairs),
    Substitution(Pairs),
    Unsaturation(Pairs),
    /// The R-group labels of atoms.
    Label(Pairs),
    /// The attachment points of atoms.
    Points(Pairs),
    Link(Links),
    List(AtomList),
    Order(SiteOrder),
    Logic(LogicLine),
    /// A line passed over, together with so many lines after it.
    Passed(u32),
    /// The end of the table.
    End,
}
