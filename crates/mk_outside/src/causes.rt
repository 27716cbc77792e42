// What an error of the system comes to.
ghost use Rattle.std.specs.Prelude.{◌≡◌};
ghost use Rattle.std.specs.IoError.{error_kind};
ghost use Rattle.mk_outside.specs.Causes.{cause_of};

use std::io::{Error, ErrorKind};

/// What an error of the system comes to.
#[derive(Clone, Copy, Debug, PartialEq, Eq)]
pub enum Cause {
    /// The call is made again.
    Interrupted,
    /// There is no file of the name.
    Absent,
    /// Memory is wanting.
    Memory,
    /// Anything else failed.
    Failed,
}

/// What the error comes to.
pub fn cause_of(error: &Error) -> Cause
    ensures { result ≡ cause_of (error_kind error.now) }
{
    match error.kind() {
        ErrorKind::Interrupted => Cause::Interrupted,
        ErrorKind::NotFound => Cause::Absent,
        ErrorKind::OutOfMemory => Cause::Memory,
        _ => Cause::Failed,
    }
}
