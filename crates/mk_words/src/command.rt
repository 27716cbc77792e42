// Commands, and what a line of a script and the words of the command line are.
use mk_outside::{Place, Text};

/// A command. Names and file names stand as they are written, and numbers without their leading
/// zeros.
#[derive(Debug, Drop)]
pub enum Command {
    /// Lists where a query lies in a molecule.
    Match {
        query: Text,
        molecules: Text,
    },
    /// Keeps the records of a file.
    Load {
        file: Text,
    },
    /// Keeps the one record of a file in place of another.
    Replace {
        number: u32,
        file: Text,
    },
    /// Drops a record.
    Remove {
        number: u32,
    },
    /// Keeps a query under a name.
    Query {
        name: Text,
        file: Text,
    },
    /// Drops a query and its saved searches.
    Forget {
        name: Text,
    },
    /// Lists the first hits of a query. With a budget it makes no more turns than that, and pauses.
    Search {
        name: Text,
        limit: u32,
        budget: Option<u32>,
    },
    /// Lists the next hits of a saved search, within a budget or without.
    Resume {
        cursor: u32,
        limit: u32,
        budget: Option<u32>,
    },
    /// Shows the text of a record.
    Show {
        number: u32,
    },
    /// Lists what is kept.
    List,
    /// Says which members of a query stand in each record.
    Table {
        name: Text,
    },
    /// Writes the first structures that a query stands for, from a place on.
    Enum {
        name: Text,
        limit: u32,
        from: Place,
    },
    /// Makes a library of its own and searches it.
    Drill {
        start: u32,
        count: u32,
    },
}

/// What a line of a script is.
#[derive(Debug, Drop)]
pub enum LineKind {
    /// Blanks alone, or nothing.
    Blank,
    /// Neither blank nor a command.
    NoCommand,
    /// This command.
    Is(Command),
}

/// What the words of the command line are.
#[derive(Debug, Drop)]
pub enum WordsKind {
    /// None, or a store alone: the input is a script.
    Script,
    /// Neither these nor a command.
    NotUnderstood,
    /// This command.
    Is(Command),
}
