//! The spelling of connection tables of the format V2000: `write_table` writes one.
//!
//! Callers use one promise. `write_table` appends exactly the spelling of a table that can be spelt
//! (`table_spelling` and `CanBeSpelt` in `specs/TableSpelling.antt`), and that spelling is the table
//! again (`spelling_is_read`), as mk_tables reads it.
//!
//! The header of a molfile isn't written here.
#![tactic(auto)]

mod writing;
mod writing_columns;
mod writing_laws;
mod writing_lines;
mod writing_properties;

pub use mk_text::Memory;
pub use writing::write_table;
pub use writing_laws::spelling_is_read;
