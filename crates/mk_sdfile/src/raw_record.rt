// What a record of an SDfile holds.
use mk_tables::RawTable;
use mk_text::{Bytes, Listed};

/// The table of a record, and the record's text: its lines before the separator, without the CR
/// bytes at their ends, and each with LF behind it.
#[derive(Debug, Drop)]
pub struct RawRecord {
    pub table: RawTable,
    pub text: Bytes,
}

/// The records of an SDfile, in the order of the file.
pub type RawRecords = Listed<RawRecord>;
