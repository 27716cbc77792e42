// The rows of a table.
use mk_model::{Listed, Numbers};

/// A record and, for each site of the root by rising atom, the member that stands there: its number
/// among the members of the site in the order of the file, from 1 on, and 0 where it is unfilled.
#[derive(Debug, Drop)]
pub struct TableRow {
    pub number: u32,
    pub members: Numbers,
}

/// The rows of a table, in order.
pub type TableRows = Listed<TableRow>;
