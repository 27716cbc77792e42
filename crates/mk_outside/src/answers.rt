// What calls to the outside answer.
ghost use Rattle.std.specs.Prelude.{◌≡◌};
ghost use Rattle.mk_outside.specs.declared.answers.PutFail.TheVariants as put_fail;
ghost use Rattle.mk_outside.specs.declared.answers.FileFail.TheVariants as file_fail;
ghost use Rattle.mk_outside.specs.declared.answers.KeepFail.TheVariants as keep_fail;

use crate::Memory;
use thiserror::Error;

/// The object outside failed.
#[derive(Clone, Copy, Debug, PartialEq, Eq, Error)]
#[error("the input can't be read")]
pub struct Failed;

/// Why a piece wasn't put.
#[derive(Clone, Copy, Debug, PartialEq, Eq, Error)]
pub enum PutFail {
    /// The sink failed. It may hold a prefix of the piece.
    #[error("the output can't be written")]
    Failed,
    /// Memory was wanting. The sink holds nothing of the piece.
    #[error("there is no memory to write the output")]
    Memory,
}

/// How far a file was read.
#[derive(Clone, Copy, Debug, PartialEq, Eq)]
pub enum ReadEnd {
    /// To its end.
    Whole,
    /// It has more bytes than asked for.
    TooLong,
}

/// Why a file wasn't read.
#[derive(Clone, Copy, Debug, PartialEq, Eq, Error)]
pub enum FileFail {
    /// It isn't there, or reading it failed.
    #[error("the file can't be read")]
    Failed,
    /// Memory was wanting.
    #[error("there is no memory to read the file")]
    Memory,
}

/// Why tables weren't loaded, or a batch wasn't committed. The tables are as before.
#[derive(Clone, Copy, Debug, PartialEq, Eq, Error)]
pub enum KeepFail {
    /// The keeper failed.
    #[error("the store can't be read or written")]
    Failed,
    /// Memory was wanting.
    #[error("there is no memory to read or write the store")]
    Memory,
}

impl From<Memory> for PutFail {
    ghost from_gives = { λ _ fail. fail ≡ put_fail.Memory };

    fn from(_: Memory) -> Self {
        PutFail::Memory
    }
}

impl From<Memory> for FileFail {
    ghost from_gives = { λ _ fail. fail ≡ file_fail.Memory };

    fn from(_: Memory) -> Self {
        FileFail::Memory
    }
}

impl From<Memory> for KeepFail {
    ghost from_gives = { λ _ fail. fail ≡ keep_fail.Memory };

    fn from(_: Memory) -> Self {
        KeepFail::Memory
    }
}
