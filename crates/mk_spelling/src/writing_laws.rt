// Laws of the spelling, carried by a function that does nothing.
ghost use Rattle.mk_spelling.specs.TableSpelling.{SpellingIsRead, EndsWithNoBlank};

/// What is written of a table is that table again, and no line of it ends with a blank.
pub fn spelling_is_read()
    ensures read { SpellingIsRead }
    ensures no_blank { EndsWithNoBlank }
{}
