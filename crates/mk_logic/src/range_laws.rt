// Laws over the definitions alone, each carried by a function that does nothing.
ghost use Rattle.mk_logic.specs.RangeTexts.{OneRange};

/// A text is at most one range.
pub fn one_range()
    ensures { OneRange }
{}
