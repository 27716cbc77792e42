// Laws over the definitions alone, each carried by a function that does nothing.
ghost use Rattle.mk_v3000.specs.KeptV3000.{KeptLinesAreTheTable};
ghost use Rattle.mk_v3000.specs.V3000Form.{OneTable, BadWhereNoTable, OneBadLine, V3000TablesAreExact};

/// A text is at most one V3000 table at a line of it, with one end, and it has one bad line exactly
/// where it has none there. As a part of other forms a V3000 table is read exactly.
pub fn v3000_is_exact()
    ensures one { OneTable }
    ensures bad { BadWhereNoTable }
    ensures one_bad { OneBadLine }
    ensures exact { V3000TablesAreExact }
{}

/// The lines of a V3000 table are, without the CR bytes at their ends, a V3000 table with the same
/// twin. So the table of a kept text is that of the text.
pub fn kept_lines_are_the_v3000_table()
    ensures { KeptLinesAreTheTable }
{}
