//! Texts: their lines and words, the columns of a line, the numbers in them, and lists of numbers
//! in order.
//!
//! The readers above use one promise. A column range is a numeric field with a number exactly as
//! `IsField` in `specs/Fields.antt` says, over the lines of `specs/Lines.antt`; `field` gives that
//! number, or None exactly where there is none. What is said everywhere of lists of numbers, that
//! one is below another and that a list rises, stands in `specs/Rising.antt`, the least item at
//! which a demand fails in `specs/Items.antt`, and what is kept of lines in `specs/KeptLines.antt`;
//! the laws are in `laws`. Lemmas for the crates above stand in `proofs/ForCallers.antt`.
//!
//! Which columns hold what isn't known here: see `mk_tables`.
#![tactic(auto)]

mod columns;
mod cutting;
mod decimals;
mod fields;
mod kept;
mod laws;
mod line_start;
mod lists;
mod texts;

pub use columns::{column, is_blank, trimmed_column};
pub use cutting::{Span, lines, words};
pub use decimals::put_number;
pub use fields::field;
pub use kept::{kept_lines, kept_lines_between};
pub use laws::{
    choices_rise, field_is_exact, first_of_rising, joined_lists_rise, kept_lines_stay,
    lines_are_read, none_before_place_behind, one_rising_list, right_justified_is_read,
    rising_from_place, signed_right_justified_is_read,
};
pub use line_start::{LineStart, first_line, line_from, start_of_line};
pub use lists::{Bytes, Listed, Numbers, Place};
pub use std::alloc::AllocError as Memory;
pub use texts::Text;
