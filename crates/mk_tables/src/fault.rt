// Why a table isn't read.
ghost use Rattle.std.specs.Prelude.{◌≡◌};
ghost use Rattle.mk_tables.specs.declared.fault.TableFault.TheVariants as fault;

use std::alloc::{AllocError, AllocFailed};
use thiserror::Error;

/// Why lines are no table. They count from 1, in the whole text.
#[derive(Clone, Copy, Debug, PartialEq, Eq, Error)]
pub enum TableFault {
    /// This is the first line that no table's front can have there, or one more than the number of
    /// lines where the text ends before the table does.
    #[error("line {line} is no line of a table there")]
    Bad { line: usize },
    /// This line is bad in the same sense. It stands where a counts line is due, and says V3000.
    #[error("line {line} says V3000")]
    V3000 { line: usize },
    /// There is no memory for the table.
    #[error("no memory for the table")]
    Memory,
}

impl From<AllocError> for TableFault {
    ghost from_gives = { λ _ e. e ≡ fault.Memory };

    fn from(_error: AllocError) -> TableFault {
        TableFault::Memory
    }
}

impl<T: Drop> From<AllocFailed<T>> for TableFault {
    ghost from_gives = { λ _ e. e ≡ fault.Memory };

    fn from(_error: AllocFailed<T>) -> TableFault {
        TableFault::Memory
    }
}
