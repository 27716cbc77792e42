// Laws over the definitions alone, each carried by a function that does nothing.
ghost use Rattle.mk_tables.specs.TableLaws.{OneTable, BadWhereNoTable, OneBadLine, TablesAreExact, BlankIsNoCountsLine};

/// A text is at most one table at a line of it, with one end, and it has one bad line exactly where
/// it has no table there. As a part of other forms a table is read exactly, so that the laws of
/// mk_form hold of each form that is made of it.
pub fn table_is_exact()
    ensures one { OneTable }
    ensures bad { BadWhereNoTable }
    ensures one_bad { OneBadLine }
    ensures exact { TablesAreExact }
{}

/// A blank line is no counts line, and doesn't say V3000.
pub fn blank_line_is_no_counts_line()
    ensures { BlankIsNoCountsLine }
{}
