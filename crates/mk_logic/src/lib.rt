//! The logic of groups: ranges as they are written, and how often the groups of a query may be
//! filled.
//!
//! Callers use three promises. `read_range` gives exactly the intervals of a range text, or None
//! exactly where the text is none (`IsRangeText` in `specs/RangeTexts.antt`; a text is at most one
//! range, by `one_range`). `holds` tells whether a number is in a range, and `allowed` whether a
//! query lets each of its groups have so many sites and so many of them filled (`IsAllowed` in
//! mk_model's `specs/Logic.antt`).
//!
//! How sites are counted isn't known here, nor where a range text stands in a file.
#![tactic(auto)]

mod allowing;
mod range_laws;
mod range_texts;
mod ranges;

pub use allowing::{allowed, is_asked};
pub use mk_text::Memory;
pub use range_laws::one_range;
pub use range_texts::read_range;
pub use ranges::{ends_below, holds};
