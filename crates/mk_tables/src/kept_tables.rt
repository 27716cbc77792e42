// A law over the definitions alone, carried by a function that does nothing.
ghost use Rattle.mk_tables.specs.KeptTables.{KeptLinesAreTheTable, KeptLinesAreTheTableFrom};

/// The lines of a table are, without the CR bytes at their ends, the same table, where no symbol
/// and no range text ends with CR. So the table of a kept text is that of the text.
pub fn kept_lines_are_the_table()
    ensures whole { KeptLinesAreTheTable }
    ensures from_a_line { KeptLinesAreTheTableFrom }
{}
