// Laws over the definitions alone, each carried by a function that does nothing.
ghost use Rattle.mk_text.specs.Fields.{FieldsAreRead};
ghost use Rattle.mk_text.specs.Choices.{ChoicesThatPass};
ghost use Rattle.mk_text.specs.KeptLines.{KeptLinesAreRead, KeptLinesStay};
ghost use Rattle.mk_text.specs.Lines.{LinesAreFew, LinesHoldNoLf, TextOfLinesIsRead};
ghost use Rattle.mk_text.specs.Rising.{FirstOfRising, JoinedListsRise, NoneBeforePlaceBehind, OneRisingList, RisingFromPlace};
ghost use Rattle.mk_text.specs.Spelling.{RightJustifiedIsRead, SignedRightJustifiedIsRead};

/// Columns are a numeric field with a number exactly where the reading of fields gives that number.
pub fn field_is_exact()
    ensures { FieldsAreRead }
{}

/// The lines of a text hold no LF, and there are no more of them than bytes. Whole lines are the
/// lines of their text.
pub fn lines_are_read()
    ensures no_lf { LinesHoldNoLf }
    ensures few { LinesAreFew }
    ensures again { TextOfLinesIsRead }
{}

/// The lines of a kept text are the lines without the CR bytes at their ends, and keeping it again
/// changes nothing.
pub fn kept_lines_stay()
    ensures lines { KeptLinesAreRead }
    ensures same { KeptLinesStay }
{}

/// Two rising lists that hold the same are one.
pub fn one_rising_list()
    ensures { OneRisingList }
{}

/// The first so many of a rising list rise, and stand below all others in it.
pub fn first_of_rising()
    ensures { FirstOfRising }
{}

/// What isn't below a place is the end of a rising list, and rises.
pub fn rising_from_place()
    ensures { RisingFromPlace }
{}

/// Nothing stands between a list and the place behind it.
pub fn none_before_place_behind()
    ensures { NoneBeforePlaceBehind }
{}

/// Rising lists with rising lists behind them rise, where none of the first is a proper prefix of
/// another.
pub fn joined_lists_rise()
    ensures { JoinedListsRise }
{}

/// The choices of numbers that pass a test, in order, are the rising list of all that do.
pub fn choices_rise()
    ensures { ChoicesThatPass }
{}

/// A number that is written right-justified in its columns is the number of that field.
pub fn right_justified_is_read()
    ensures { RightJustifiedIsRead }
{}

/// The same for a number with a sign.
pub fn signed_right_justified_is_read()
    ensures { SignedRightJustifiedIsRead }
{}
