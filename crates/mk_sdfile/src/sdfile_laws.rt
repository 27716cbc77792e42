// Laws of SDfiles, carried by functions that do nothing.
ghost use Rattle.mk_sdfile.specs.Sdfile.{HasOneValue, HasBadLine, HasOneBadLine, TextIsItsRecord};

/// Lines are one SDfile at most, with one list of records, and they have one bad line exactly where
/// they are none.
pub fn sdfile_is_exact()
    ensures one { HasOneValue }
    ensures bad { HasBadLine }
    ensures one_bad { HasOneBadLine }
{}

/// The text of a record is an SDfile of that one record, where its table keeps its text.
pub fn text_is_its_record()
    ensures { TextIsItsRecord }
{}
