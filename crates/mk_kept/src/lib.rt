//! Queries and saved searches that are kept: what a text is as a query file, what is held beside a
//! library, one change of it at a time, and the stored rows of it that read.
//!
//! Callers use two promises. A text is exactly one query, or exactly one thing is said of it
//! (`query_of`, `IsTextSaid` in `specs/QueryText.antt`). A `Saved` is begun exactly where all stored
//! rows of it read, or the first that doesn't is named (`saved_of`, `specs/StoredRows.antt`), and
//! each change that fits makes of it what a batch makes of tables (`Saved::install`).
//!
//! It knows no command, no answer and no file: see `mk_query_edits`.
#![tactic(auto)]

mod names;
mod query_text;
mod saved;
mod saved_pending;
mod stored_rows;

pub use names::is_name;
pub use query_text::{QueryText, one_said, query_of};
pub use saved::{Kept, Saved, SavedSearch};
pub use saved_pending::SavedPending;
pub use stored_rows::{BeginFail, RowKind, saved_of};
