//! Connection tables of the format V2000: `read_table` reads a whole one.
//!
//! Callers use one promise. `read_table` gives exactly the table that begins at a line of a
//! text, or names exactly the first line that no table can have there, and whether that line says
//! V3000 (`IsTable` in `specs/Table.antt` over the lines of `specs/TableLines.antt`; the bad line
//! as in mk_form; the columns in docs/FORMAT.md). Every table that it gives keeps what `IsRawTable`
//! in `specs/TableFacts.antt` says. `table_at` in `specs/TableReading.antt` is the same, computed,
//! and readers of longer texts go on from it.
//!
//! How a table is written stands in mk_spelling, and what is asked of any table in mk_demands. What a
//! table means for a molecule, a query or a search isn't said here.
#![tactic(auto)]

mod fault;
mod kept_tables;
mod laws;
mod raw;
mod rows;
mod table_lines;
mod table_reading;
mod table_walk;

pub use fault::TableFault;
pub use kept_tables::kept_lines_are_the_table;
pub use laws::{blank_line_is_no_counts_line, table_is_exact};
pub use mk_text::{Bytes, Listed, Memory};
pub use raw::{
    Properties, RawAtom, RawAtoms, RawBond, RawBonds, RawList, RawLists, RawTable, Signed,
};
pub use table_reading::read_table;
pub use table_walk::molfile_from;
