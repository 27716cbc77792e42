//! Query files: `read_rgfile` reads an RGfile, or a molfile followed by blank lines alone, into raw
//! tables.
//!
//! Callers use one promise. `read_rgfile` gives exactly the raw query of a query file, or names
//! exactly the first line with which no query file can begin, and whether that line says V3000
//! where a counts line is due (`IsQueryFile`, `IsBadQueryLine` and `IsV3000Line` in
//! `specs/QueryFile.antt` over the lines of `specs/QueryLines.antt`; the layout in docs/FORMAT.md,
//! "Query files"). Every raw query that it gives keeps what `specs/QueryFacts.antt` says.
//!
//! The lines of a table are those of `mk_tables`. What a query means, and whether its tables hang
//! together, isn't said here.
#![tactic(auto)]

mod query_laws;
mod query_lines;
mod query_reading;
mod raw_query;

pub use mk_tables::{RawTable, TableFault};
pub use mk_text::Memory;
pub use query_laws::{kept_lines_are_the_query, kept_text_stays, query_file_is_exact};
pub use query_reading::read_rgfile;
pub use raw_query::{RawGroup, RawGroups, RawQuery, RawTables};
