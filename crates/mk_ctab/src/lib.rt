//! Connection tables of the format V2000, under one name: `read_table` reads one, `write_table` writes
//! one.
//!
//! Nothing is defined here. What reads stands in mk_tables, with what a table is and what its bad line
//! is; what writes stands in mk_spelling, with the law that a table is read again as it was written.
//! Readers of files wait for mk_tables alone.
#![tactic(auto)]

pub use mk_spelling::{spelling_is_read, write_table};
pub use mk_tables::{
    Bytes, Listed, Memory, Properties, RawAtom, RawAtoms, RawBond, RawBonds, RawList, RawLists,
    RawTable, Signed, TableFault, blank_line_is_no_counts_line, kept_lines_are_the_table,
    molfile_from, read_table, table_is_exact,
};
