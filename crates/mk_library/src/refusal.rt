// Why an edit or a stored row is refused.
ghost use Rattle.std.specs.Prelude.{◌≡◌};
ghost use Rattle.mk_library.specs.declared.refusal.LoadRefusal.TheVariants as refusal;
ghost use Rattle.mk_library.specs.declared.refusal.RestoreFault.TheVariants as fault;

use std::alloc::{AllocError, AllocFailed};
use thiserror::Error;

/// The first demand that an edit doesn't meet, in this order.
#[derive(Clone, Copy, Debug, PartialEq, Eq, Error)]
pub enum LoadRefusal {
    /// No record has the number.
    #[error("no record has the number")]
    NoRecord,
    /// The file has more than 67,108,864 bytes.
    #[error("the file is too large")]
    FileLarge,
    /// The file is no SDfile from this line on, or this line says V3000 where a counts line is due.
    #[error("line {line} fits no SDfile")]
    Layout { line: usize, v3000: bool },
    /// The file holds so many records, and one is asked for.
    #[error("{count} records in place of one")]
    NotOne { count: u32 },
    /// The first record of the file that is no molecule, with the first check that it fails and the
    /// item.
    #[error("record {number} fails check V{check} at item {item}")]
    Meaning { number: u32, check: u8, item: u32 },
    /// There would be too many records, too many bytes of text, or too great a number.
    #[error("the library is full")]
    Full,
    /// There is no memory for the change.
    #[error("no memory for the change")]
    Memory,
}

impl From<AllocError> for LoadRefusal {
    ghost from_gives = { λ _ e. e ≡ refusal.Memory };

    fn from(_error: AllocError) -> LoadRefusal {
        LoadRefusal::Memory
    }
}

impl<T: Drop> From<AllocFailed<T>> for LoadRefusal {
    ghost from_gives = { λ _ e. e ≡ refusal.Memory };

    fn from(_error: AllocFailed<T>) -> LoadRefusal {
        LoadRefusal::Memory
    }
}

/// Why stored rows are no library.
#[derive(Clone, Copy, Debug, PartialEq, Eq, Error)]
pub enum RestoreFault {
    /// The first row that doesn't read has this number.
    #[error("the row of record {number} doesn't read")]
    Bad { number: u32 },
    /// There is no memory for the library.
    #[error("no memory for the library")]
    Memory,
}

impl From<AllocError> for RestoreFault {
    ghost from_gives = { λ _ e. e ≡ fault.Memory };

    fn from(_error: AllocError) -> RestoreFault {
        RestoreFault::Memory
    }
}

impl<T: Drop> From<AllocFailed<T>> for RestoreFault {
    ghost from_gives = { λ _ e. e ≡ fault.Memory };

    fn from(_error: AllocFailed<T>) -> RestoreFault {
        RestoreFault::Memory
    }
}
