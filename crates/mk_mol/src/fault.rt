// Why a table is no molecule.
ghost use Rattle.std.specs.Prelude.{◌≡◌};
ghost use Rattle.mk_mol.specs.declared.fault.PrepareFault.TheVariants as fault;

use std::alloc::{AllocError, AllocFailed};
use thiserror::Error;

#[derive(Clone, Copy, Debug, PartialEq, Eq, Error)]
pub enum PrepareFault {
    /// The first of the checks V1 to V7 that fails, and the least atom, bond or property at which
    /// it does. Item 0 of V7 is an atom list.
    #[error("check V{check} fails at item {item}")]
    Check { check: u8, item: u32 },
    /// There is no memory for the molecule.
    #[error("no memory for the molecule")]
    Memory,
}

impl From<AllocError> for PrepareFault {
    ghost from_gives = { λ _ e. e ≡ fault.Memory };

    fn from(_error: AllocError) -> PrepareFault {
        PrepareFault::Memory
    }
}

impl<T: Drop> From<AllocFailed<T>> for PrepareFault {
    ghost from_gives = { λ _ e. e ≡ fault.Memory };

    fn from(_error: AllocFailed<T>) -> PrepareFault {
        PrepareFault::Memory
    }
}
