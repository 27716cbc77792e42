// A query as it is written: its tables, and nothing checked.
use mk_tables::RawTable;
use mk_text::Listed;

/// A list of tables.
pub type RawTables = Listed<RawTable>;

/// An R-group: its number, and its member tables in the order of the file.
#[derive(Debug, Drop)]
pub struct RawGroup {
    pub number: u8,
    pub members: RawTables,
}

/// A list of groups.
pub type RawGroups = Listed<RawGroup>;

/// The root table of a query, and its groups in the order of the file. A number may stand at more
/// than one group.
#[derive(Debug, Drop)]
pub struct RawQuery {
    pub root: RawTable,
    pub groups: RawGroups,
}
