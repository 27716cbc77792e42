//! Connection tables of the format V3000: `read_v3000` reads a whole one as the table that it would
//! be in the format V2000.
//!
//! Callers use one promise. `read_v3000` gives exactly the twin of the table that begins at a line
//! of a text, or names exactly the first line that no such table can have there (`IsV3000Table` in
//! `specs/V3000Table.antt` over the lines of `specs/WordLines.antt`; the layout in docs/FORMAT.md,
//! "V3000 tables"). Lines that end inside a logical line, which has begun and goes on, are no fault
//! yet (`IsV3000Front`).
//!
//! What a table means for a molecule isn't said here, and queries aren't read from V3000.
#![tactic(auto)]

mod indexes;
mod laws;
mod logical_lines;
mod next_word;
mod reading;
mod v3000;
mod walk;
mod word_lines;

pub use laws::{kept_lines_are_the_v3000_table, v3000_is_exact};
pub use mk_tables::{RawTable, TableFault};
pub use mk_text::Memory;
pub use reading::read_v3000;
pub use v3000::v3000_from;
