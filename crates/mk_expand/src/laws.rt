// A law over the definitions alone, carried by a function that does nothing.
ghost use Rattle.mk_expand.specs.Laws.{CodesAreOpenCodes};

/// Each structural code is an open code in which no slot is left open, and what it makes of a
/// template is the template's expansion.
pub fn codes_are_open_codes()
    ensures { CodesAreOpenCodes }
{}
