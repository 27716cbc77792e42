// Laws over the definitions alone, each carried by a function that does nothing.
ghost use Rattle.mk_library.specs.EditedRows.{EditsAreOfRecords, EditsKeepReading};
ghost use Rattle.mk_library.specs.Pending.{RecordsChangeAlone};

/// Changes of records leave queries and cursors, and rest on the records and their next number
/// alone.
pub fn records_change_alone()
    ensures { RecordsChangeAlone }
{}

/// An edit that is allowed leaves rows that read, where those before it did and their next number
/// was at least 1. It puts and drops records alone.
pub fn edits_keep_reading()
    ensures reading { EditsKeepReading }
    ensures of_records { EditsAreOfRecords }
{}
