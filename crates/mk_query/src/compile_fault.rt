// Why a raw query is no query.
ghost use Rattle.std.specs.Prelude.{◌≡◌};
ghost use Rattle.mk_query.specs.declared.compile_fault.CompileFault.TheVariants as fault;

use std::alloc::{AllocError, AllocFailed};
use thiserror::Error;

#[derive(Clone, Copy, Debug, PartialEq, Eq, Error)]
pub enum CompileFault {
    /// The first of the checks Q1 to Q14 that fails, the table at which it does, and the least
    /// atom, bond or property there.
    #[error("check Q{check} fails in table {table} at item {item}")]
    Check { check: u8, table: u32, item: u32 },
    /// There is no memory for the query.
    #[error("no memory for the query")]
    Memory,
}

impl From<AllocError> for CompileFault {
    ghost from_gives = { λ _ e. e ≡ fault.Memory };

    fn from(_error: AllocError) -> CompileFault {
        CompileFault::Memory
    }
}

impl<T: Drop> From<AllocFailed<T>> for CompileFault {
    ghost from_gives = { λ _ e. e ≡ fault.Memory };

    fn from(_error: AllocFailed<T>) -> CompileFault {
        CompileFault::Memory
    }
}

/// A check by its number, and the table and the item that it names.
#[derive(Clone, Copy)]
pub struct FaultAt {
    pub check: u8,
    pub table: u32,
    pub item: u32,
}
