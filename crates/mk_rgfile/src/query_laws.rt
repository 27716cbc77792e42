// Laws of query files, carried by functions that do nothing.
ghost use Rattle.mk_rgfile.specs.KeptQueries.{KeptLinesAreKept, KeptLinesAreTheQuery, KeptTextStays};
ghost use Rattle.mk_rgfile.specs.QueryFile.{HasOneQuery, HasBadLine, HasOneBadLine};

/// Lines are at most one query file, with one query, and they have one bad line exactly where they
/// are none.
pub fn query_file_is_exact()
    ensures one { HasOneQuery }
    ensures bad { HasBadLine }
    ensures one_bad { HasOneBadLine }
{}

/// The lines of a query file are, without the CR bytes at their ends, the same query file, where no
/// symbol and no range text ends with CR.
pub fn kept_lines_are_the_query()
    ensures { KeptLinesAreTheQuery }
{}

/// The kept lines of a text end with LF and without CR; and a text of such lines is exactly one
/// that keeping leaves as it is.
pub fn kept_text_stays()
    ensures kept { KeptLinesAreKept }
    ensures same { KeptTextStays }
{}
