// The law of screens, carried by a function that does nothing.
ghost use Rattle.mk_model.specs.Screens.{ScreeningLosesNoHit};

/// Where a graph has a hit in a molecule, the molecule's screen covers the graph's need.
pub fn screening_loses_no_hit()
    ensures { ScreeningLosesNoHit }
{}
