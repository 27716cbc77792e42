// Laws over a part on which all else of a whole hangs by bridges, each carried by a function that does
// nothing.
ghost use Rattle.mk_expand.specs.Bridges.{AromaticSetStays, NoRingBondLeadsAway, RingBondsStay};

/// Where all else of a whole hangs on a part by bridges, a bond of the part is a ring bond there
/// exactly where it is one in the whole.
pub fn ring_bonds_stay()
    ensures { RingBondsStay }
{}

/// And a ring bond of the whole that ends at an atom of the part is a bond of the part.
pub fn no_ring_bond_leads_away()
    ensures { NoRingBondLeadsAway }
{}

/// The aromatic set of the whole, cut to the part, is the part's.
pub fn aromatic_set_stays()
    ensures { AromaticSetStays }
{}
