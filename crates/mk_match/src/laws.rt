// Laws over the definitions alone, each carried by a function that does nothing.
ghost use Rattle.mk_match.specs.Maps.{NextIsFirst, NoneIsLeft};
ghost use Rattle.mk_walk.specs.Plain.{HitsAreListed};

/// The plain program, which tries all lists of atoms, gives the rising list of all hits.
pub fn hits_are_listed()
    ensures { HitsAreListed }
{}

/// A hit that is taken is the first of those left, and the others are left behind it; where none is
/// taken none was left.
pub fn hits_are_taken_in_order()
    ensures first { NextIsFirst }
    ensures none { NoneIsLeft }
{}
