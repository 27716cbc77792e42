//! Forms of text, to be proved with; nothing of this crate runs. It says what a front is, which
//! line is bad, and what it is to read a form exactly.
//!
//! A form is a relation between a whole list of lines and a value. A front is what some further
//! lines, or none, make a text of the form. The bad line of lines that are no text is the least k
//! for which lines 1 to k are no front, or the number of lines plus 1 (`IsBadLine` in
//! `specs/Fronts.antt`). A line is named where a line that may say its name is due after exactly
//! the lines before it, and it says it (`IsNamed`).
//!
//! Callers use one promise. A form that is read exactly (`Exact` in `specs/Exact.antt`) has at most
//! one value for each text, where its reader stops is the bad line, and there is one exactly where
//! there is no value. These laws are the contracts of `stopping`. Forms are made of parts, each a
//! value of `Part` with its relation and its reader: one line, one part after another, rows, a
//! choice, parts until an end, lines to the end. That each is read exactly is a contract of
//! `combining`; what each reads is computed on a few lines in `specs/Examples.antt`. Proofs in
//! other crates cite the lemmas of `proofs/`.
//!
//! A form whose texts may be cut where no further line can mend them says what is live in place of
//! its fronts. The laws are proved for what is live; `Completes` says that it is the fronts.
//!
//! Lines are of any type here. What a line spells, and what a table or a file is, is said in the
//! crates above.
#![tactic(auto)]

mod any;
mod combining;
mod stopping;

pub use any::{
    AnyForm, AnyJoined, AnyPart, AnyPartAfter, AnySpelling, AnySteps, AnyTest, AnyText, AnyView,
};
pub use combining::{
    any_lines_are_exact, below_is_kept, choice_is_exact, counts_line_is_exact, either_is_exact,
    form_is_exact, give_is_exact, in_words_is_exact, joined_is_exact, limit_is_exact,
    line_is_exact, lines_to_end_are_exact, plain_is_exact, rows_are_exact, seen_as_is_exact,
    sequence_is_exact, until_is_exact, up_to_is_exact, with_lines_is_exact,
};
pub use stopping::{
    bad_line_is_stop, bad_line_of_part_is_stop, bad_line_where_no_text, lives_are_fronts,
    named_line_is_due, one_bad_line, one_part, one_value, part_is_taken, part_or_bad_line,
    stop_is_named, text_is_taken, text_or_bad_line,
};
