// What a command comes to, and why it came to no end.
ghost use Rattle.std.specs.Prelude.{◌≡◌};
ghost use Rattle.mk_found.specs.declared.effect.StepFail.TheVariants as step_fail;
ghost use Rattle.mk_found.specs.Fails.{IsStepFailOf, IsStepFailOfKeep};

use mk_kept::SavedPending;
use mk_library::Pending;
use mk_outside::{Bytes, FileFail, KeepFail, Memory};
use thiserror::Error;

/// What a command changes.
#[derive(Drop)]
pub enum SessionEdit {
    Unchanged,
    /// Records, by a change that is made ready.
    OfRecords(Pending),
    /// Queries and saved searches, by a change that is made ready.
    OfSaved(SavedPending),
}

/// What a command comes to, found before anything is changed.
#[derive(Drop)]
pub enum Found {
    /// It is refused with this line.
    Refused(Bytes),
    /// It makes this edit, and answers with this text.
    Answered(SessionEdit, Bytes),
}

/// Why a command came to no end.
#[derive(Clone, Copy, Debug, PartialEq, Eq, Error)]
pub enum StepFail {
    #[error("a file can't be read")]
    Read,
    #[error("the batch can't be committed")]
    Store,
    #[error("no memory for the command")]
    Memory,
}

impl From<Memory> for StepFail {
    ghost from_gives = { λ _ fail. fail ≡ step_fail.Memory };

    fn from(_: Memory) -> Self {
        StepFail::Memory
    }
}

impl From<FileFail> for StepFail {
    ghost from_gives = { IsStepFailOf };

    fn from(fail: FileFail) -> Self {
        match fail {
            FileFail::Failed => StepFail::Read,
            FileFail::Memory => StepFail::Memory,
        }
    }
}

impl From<KeepFail> for StepFail {
    ghost from_gives = { IsStepFailOfKeep };

    fn from(fail: KeepFail) -> Self {
        match fail {
            KeepFail::Failed => StepFail::Store,
            KeepFail::Memory => StepFail::Memory,
        }
    }
}
