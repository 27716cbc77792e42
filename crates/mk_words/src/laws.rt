// Laws over the definitions alone, each carried by a function that does nothing.
ghost use Rattle.mk_words.specs.Commands.{CommandsAreRead, OneReading, StoreIsRead, WordsAreRead};

/// The command that words are is computed exactly, and words are at most one command.
pub fn commands_are_read()
    ensures read { CommandsAreRead }
    ensures one { OneReading }
{}

/// The path of a store is read exactly where the words have one in front, and words ask for exactly
/// what they say.
pub fn words_are_read()
    ensures store { StoreIsRead }
    ensures words { WordsAreRead }
{}
