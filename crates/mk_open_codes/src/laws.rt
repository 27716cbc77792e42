// Laws over the definitions alone, each carried by a function that does nothing.
ghost use Rattle.mk_open_codes.specs.Alone.{AloneFrontsHoldNone, SlotsHoldNone};
ghost use Rattle.mk_open_codes.specs.Fronts.{FrontsAreCompleted, FrontsArePassedOver, FrontsHaveOpenCodes, FrontsHoldNone, RootNeed};
ghost use Rattle.mk_open_codes.specs.Laws.{CompletionsCoverItsNeed, CompletionsHoldTheOpenGraph, NoHitNoCompletion};
ghost use Rattle.mk_open_codes.specs.Completions.{OpenCodesAreReadOneWay};

/// Numbers spell at most one open choice.
pub fn open_codes_are_read_one_way()
    ensures { OpenCodesAreReadOneWay }
{}

/// The expansion by each code that completes an open code holds the open code's graph.
pub fn completions_hold_the_open_graph()
    ensures { CompletionsHoldTheOpenGraph }
{}

/// Where the graph of an open code has no embedding, no code that completes it has one.
pub fn no_hit_no_completion()
    ensures { NoHitNoCompletion }
{}

/// Where a code that completes an open code has a hit, the need of the open code's graph is covered.
pub fn completions_cover_its_need()
    ensures { CompletionsCoverItsNeed }
{}

/// Numbers with which a code begins are an open code, with some slots behind them left open.
pub fn fronts_have_open_codes()
    ensures { FrontsHaveOpenCodes }
{}

/// Each code that begins with a front completes the front's open code.
pub fn fronts_are_completed()
    ensures { FrontsAreCompleted }
{}

/// Where the graph of a front's open code has no embedding, no occurrence begins with the front.
pub fn fronts_hold_none()
    ensures { FrontsHoldNone }
{}

/// Where the graph of a front's open code has no embedding, what remains inside the front is what
/// remains behind it.
pub fn fronts_are_passed_over()
    ensures { FrontsArePassedOver }
{}

/// The need of the graph in which all slots of the root are left open is a need of all occurrences.
pub fn root_need()
    ensures { RootNeed }
{}

/// Where the graph of a choice alone has no embedding, no occurrence begins with numbers that end
/// with that choice.
pub fn alone_fronts_hold_none()
    ensures { AloneFrontsHoldNone }
{}

/// Where the graph of no choice alone at a slot has a hit, there is no occurrence.
pub fn slots_hold_none()
    ensures { SlotsHoldNone }
{}
