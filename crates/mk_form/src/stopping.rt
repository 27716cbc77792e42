//! What follows for each form that is read exactly: its value, its bad line, and the name of a
//! line.

ghost use Rattle.std.specs.Prelude.{List};
ghost use Rattle.mk_form.specs.Exact.{Exact, Completes, Anything, NoLines};
ghost use Rattle.mk_form.specs.StopLaws.{HasOneStop, LivesAreFronts, HasOneValue, TextIsTaken, BadLineIsStop, IsTextOrBad, BadIsNoText, HasOneBadLine, HasOnePart, PartIsTaken, BadLineOfPartIsStop, IsPartOrBad, PartFromIsTaken, BadLineFromIsStop, HasOnePartFrom, BadFromIsNoPart, HasOneBadLineFrom, NamedIsDue, NamedFromIsDue, StopIsNamed, StopFromIsNamed};

use crate::any::{AnyPart, AnyText};

// ---- what is live

/// What is live is what is a front, where it can be completed.
pub fn lives_are_fronts<L, V, T: AnyText<L>, P: AnyPart<L, V>>()
    ensures { Exact T.says T.follows P.part → Completes P.part → LivesAreFronts P.part }
{}

// ---- whole texts

/// A text is at most one text of a form, with one value.
pub fn one_value<L, V, T: AnyText<L>, P: AnyPart<L, V>>()
    ensures { Exact T.says NoLines P.part → HasOneValue P.part }
{}

/// A text of the form is what its reader takes to the last line.
pub fn text_is_taken<L, V, T: AnyText<L>, P: AnyPart<L, V>>()
    ensures { Exact T.says NoLines P.part → TextIsTaken P.part }
{}

/// Where the reader stops is the bad line.
pub fn bad_line_is_stop<L, V, T: AnyText<L>, P: AnyPart<L, V>>()
    ensures { Exact T.says NoLines P.part → BadLineIsStop P.part }
{}

/// Lines are a text of the form or have a bad line.
pub fn text_or_bad_line<L, V, T: AnyText<L>, P: AnyPart<L, V>>()
    ensures { Exact T.says NoLines P.part → IsTextOrBad P.part }
{}

/// Lines have a bad line exactly where they are no text of the form.
pub fn bad_line_where_no_text<L, V, T: AnyText<L>, P: AnyPart<L, V>>()
    ensures { Exact T.says NoLines P.part → BadIsNoText P.part }
{}

/// At most one line is the bad line.
pub fn one_bad_line<L, V, P: AnyPart<L, V>>()
    ensures stop { HasOneStop P.part.live }
    ensures bad { HasOneBadLine P.part }
    ensures behind { HasOneBadLineFrom P.part }
{}

// ---- parts of a longer text

/// At most one text of the form begins with the lines, with one value.
pub fn one_part<L, V, T: AnyText<L>, P: AnyPart<L, V>>()
    ensures here { Exact T.says Anything P.part → HasOnePart P.part }
    ensures behind { Exact T.says Anything P.part → HasOnePartFrom P.part }
{}

/// A text of the form with which the lines begin is what its reader takes.
pub fn part_is_taken<L, V, T: AnyText<L>, P: AnyPart<L, V>>()
    ensures here { Exact T.says Anything P.part → PartIsTaken P.part }
    ensures behind { Exact T.says Anything P.part → PartFromIsTaken P.part }
{}

/// Where the reader stops is the bad line of lines with which no text of the form begins.
pub fn bad_line_of_part_is_stop<L, V, T: AnyText<L>, P: AnyPart<L, V>>()
    ensures here { Exact T.says Anything P.part → BadLineOfPartIsStop P.part }
    ensures behind { Exact T.says Anything P.part → BadLineFromIsStop P.part }
{}

/// A text of the form begins with the lines, or they have a bad line.
pub fn part_or_bad_line<L, V, T: AnyText<L>, P: AnyPart<L, V>>()
    ensures here { Exact T.says Anything P.part → IsPartOrBad P.part }
    ensures behind { Exact T.says Anything P.part → BadFromIsNoPart P.part }
{}

// ---- the name of a line

/// A line is due that may say its name, and says it, exactly where the reader stops and names the
/// line.
pub fn named_line_is_due<L, V, T: AnyText<L>, P: AnyPart<L, V>>()
    ensures here { Exact T.says T.follows P.part → NamedIsDue T.says P.part }
    ensures behind { Exact T.says T.follows P.part → NamedFromIsDue T.says P.part }
{}

/// A stop is named exactly where a line is due that may say its name, and the line says it.
pub fn stop_is_named<L, V, T: AnyText<L>, P: AnyPart<L, V>>()
    ensures here { Exact T.says T.follows P.part → StopIsNamed T.says P.part }
    ensures behind { Exact T.says T.follows P.part → StopFromIsNamed T.says P.part }
{}
