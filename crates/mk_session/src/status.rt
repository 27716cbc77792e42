// How a command ends, and how a run does.
use crate::StepFail;

/// How a command ended.
#[derive(Clone, Copy, Debug, PartialEq, Eq)]
pub enum Ended {
    /// It was done.
    Done,
    /// It was refused, and changed nothing.
    Refused,
}

/// How a run ends.
#[derive(Clone, Copy, Debug, PartialEq, Eq)]
pub enum Status {
    /// Every command was done.
    Done,
    /// Some command was refused.
    Refused,
    /// The words of the command line weren't understood.
    Words,
    /// A file or the input couldn't be read.
    Read,
    /// The output couldn't be written.
    Write,
    /// The store couldn't be read or written.
    Store,
    /// Memory was wanting.
    Memory,
    /// The store holds a row that doesn't read.
    BadStore,
    /// The script is over its limit.
    ScriptLong,
}

impl Status {
    ghost use Rattle.std.specs.Prelude.{◌≡◌};
    ghost use Rattle.mk_session.specs.Status.{code_of};

    /// The exit status of the program.
    pub fn code(&self) -> u8
        ensures { result ≡ code_of self.now }
    {
        match self {
            Status::Done => 0,
            Status::Refused => 1,
            Status::Words => 2,
            Status::Read => 3,
            Status::Write => 4,
            Status::Store => 5,
            Status::Memory => 6,
            Status::BadStore => 7,
            Status::ScriptLong => 8,
        }
    }
}

impl From<StepFail> for Status {
    ghost use Rattle.mk_session.specs.Status.{IsStatusOf};

    ghost from_gives = { IsStatusOf };

    fn from(fail: StepFail) -> Self {
        match fail {
            StepFail::Read => Status::Read,
            StepFail::Store => Status::Store,
            StepFail::Memory => Status::Memory,
        }
    }
}
